// Encryptions that cannot be opened with what is derivable at a node.
ghost use Rattle.std.specs.Prelude.{◌≡◌, [], map, IfOk, OnOk};
ghost use Rattle.cp_cohort.specs.GatheredLists.{EachGives};
ghost use Rattle.cp_derive.specs.Given.{IsDerivable};
ghost use Rattle.cp_theory.specs.Above.{encryptions_above};
ghost use Rattle.cp_escape.specs.ClosedEncryptions.{IsClosedTo, TellsClosed, IsHidden, GivesClosedTo, PutsTerms};
ghost use Rattle.cp_escape.specs.Escape.{IsFirstWith, positions_of};

use crate::above::encryptions_above;
use cp_cohort::add_term;
use cp_derive::{Known, buildable};
use cp_term::{Path, Shape, Term, invert, paths_of};
use std::alloc::{AllocError, Global};

/// Whether a term is an encryption that cannot be opened.
fn is_closed(alloc: Global, known: &Known, term: &Term) -> Result<bool, AllocError>
    ensures { IfOk result (λ answer. TellsClosed known.now term.now answer) }
{
    match term.shape() {
        Shape::Encryption(_, key) => {
            invert(alloc, key).map(|inverse| !buildable(known, &inverse))
        }
        _ => Ok(false),
    }
}

/// The outermost encryption around the position that cannot be opened. It exists because the message is derivable but the term at
/// the position is not.
fn outermost_closed(
    alloc: Global,
    known: &Known,
    message: &Term,
    path: &Path,
) -> Result<Term, AllocError>
    requires { IsHidden known.now message.now path.now }
    ensures { IfOk result (λ e. IsFirstWith (IsClosedTo known.now) (encryptions_above message.now path.now) e) }
{
    let encryptions = encryptions_above(alloc, message, path.as_slice())?;
    for encryption in &encryptions {
        if is_closed(alloc, known, *encryption)? {
            return encryption.copy();
        }
    }
    unreachable!()
}

/// For each occurrence of the critical term in a message, appends the outermost encryption around it that cannot be opened,
/// unless it is listed already.
pub(crate) fn add_closed(
    alloc: Global,
    known: &Known,
    message: &Term,
    critical: &Term,
    encryptions: &mut Vec<Term>,
) -> Result<(), AllocError>
    requires derivable { IsDerivable known.now message.now }
    requires underivable { IsDerivable known.now critical.now → ⊥ }
    ensures { OnOk result (PutsTerms (EachGives (GivesClosedTo known.now message.now) (positions_of critical.now message.now)) encryptions.old.items encryptions.new.items) }
{
    let paths = paths_of(alloc, message, critical)?;
    for path in &paths {
        let encryption = outermost_closed(alloc, known, message, path)?;
        add_term(encryption, encryptions)?;
    }
    Ok(())
}
