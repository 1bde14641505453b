// Terms made by hand, what they carry and where, and a copy of a pattern.
ghost use Rattle.std.specs.Prelude.{◌≡◌, IfOk};
ghost use Rattle.cp_term.specs.Variables.{variable_of_sort};

use cp_model::Variable;
use cp_term::{
    Locals, Path, Pattern, Sort, Step, Term, VarId, at, carries, depth, enc, pair, paths_of, var,
};
use std::alloc::{AllocError, Global};
use std::test::Fail;

/// The variable of this sort with this number.
pub(crate) fn variable(alloc: Global, sort: Sort, number: usize) -> Result<Term, AllocError>
    ensures { IfOk result (λ t. t ≡ variable_of_sort sort number) }
{
    var(alloc, VarId::numbered(number), sort)
}

/// A text, encrypted under the symmetric key 1.
pub(crate) fn sealed(alloc: Global, number: usize) -> Result<Term, AllocError> {
    let body = variable(alloc, Sort::Text, number)?;
    enc(alloc, body, variable(alloc, Sort::Skey, 1)?)
}

/// The pair of the text 0 and its encryption.
fn text_and_sealed(alloc: Global) -> Result<Term, AllocError> {
    let text = variable(alloc, Sort::Text, 0)?;
    pair(alloc, text, sealed(alloc, 0)?)
}

/// Whether the path leads to the part.
fn leads(alloc: Global, whole: &Term, steps: &[Step], part: &Term) -> Result<bool, AllocError> {
    let path = Path::from_slice(alloc, steps)?;
    Ok(at(whole, &path).is_some_and(|found| found.same(part)))
}

/// Whether the paths are these, and lead to the part.
fn are_paths(
    alloc: Global,
    whole: &Term,
    part: &Term,
    paths: &[Path],
    wanted: &[&[Step]],
) -> Result<bool, AllocError> {
    for (path, steps) in paths.iter().zip(wanted) {
        if path.as_slice() != *steps || !leads(alloc, whole, steps, part)? {
            return Ok(false);
        }
    }
    Ok(paths.len() == wanted.len())
}

/// Whether the whole, which is three deep, carries the part at these positions alone.
fn is_carried(
    alloc: Global,
    whole: &Term,
    part: &Term,
    wanted: &[&[Step]],
) -> Result<bool, AllocError> {
    let paths = paths_of(alloc, whole, part)?;
    Ok(
        depth(whole) == 3
            && carries(whole, part) != wanted.is_empty()
            && are_paths(alloc, whole, part, &paths, wanted)?,
    )
}

/// The same for the pair of a text and its encryption.
fn is_carried_there(
    alloc: Global,
    part: Result<Term, AllocError>,
    wanted: &[&[Step]],
) -> Result<bool, AllocError> {
    is_carried(alloc, &text_and_sealed(alloc)?, &part?, wanted)
}

// An encryption does not carry its key.
#[test]
fn carried(rt: HostRuntime) -> Result<(), Fail> {
    let alloc = rt.alloc();
    assert!(rt; is_carried_there(alloc, variable(alloc, Sort::Skey, 1), &[])?);
    assert!(rt; is_carried_there(alloc, variable(alloc, Sort::Text, 1), &[])?);
    Ok(())
}

// Of two positions the left one comes first.
#[test]
fn positions(rt: HostRuntime) -> Result<(), Fail> {
    let alloc = rt.alloc();
    let text: &[&[Step]] = &[&[Step::Left], &[Step::Right, Step::Plaintext]];
    assert!(rt; is_carried_there(alloc, variable(alloc, Sort::Text, 0), text)?);
    assert!(rt; is_carried_there(alloc, sealed(alloc, 0), &[&[Step::Right]])?);
    assert!(rt; is_carried_there(alloc, text_and_sealed(alloc), &[&[]])?);
    Ok(())
}

/// The text 0 under the symmetric key 1, where that text is local.
pub(crate) fn pattern(alloc: Global) -> Result<Pattern, AllocError> {
    let mut locals = Locals::new(alloc);
    locals.push(Variable {
        sort: Sort::Text,
        number: 0,
    })?;
    let text = var(alloc, VarId::numbered(0), Sort::Text)?;
    let key = var(alloc, VarId::numbered(1), Sort::Skey)?;
    let term = enc(alloc, text, key)?;
    Ok(Pattern::new(term, locals))
}

/// Whether the copy of a pattern has its term and its local.
fn is_copied(pattern: &Pattern) -> Result<bool, AllocError> {
    let copy = pattern.copy()?;
    Ok(copy.term().same(pattern.term()) && copy.locals() == pattern.locals())
}

#[test]
fn patterns(rt: HostRuntime) -> Result<(), Fail> {
    assert!(rt; is_copied(&pattern(rt.alloc())?)?);
    Ok(())
}
