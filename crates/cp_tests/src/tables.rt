// Numbers of keys and of terms.
use crate::terms::variable;
use cp_intern::{Id, Interner};
use cp_term::{Sort, Term, TermTable, enc, pair, pubk};
use std::alloc::{AllocError, Global};
use std::test::Fail;

/// Whether this key has this number.
fn is_at(keys: &Interner<u64>, id: Id, key: u64) -> bool {
    id.number() < keys.len() && *keys.get(id) == key
}

// The first key keeps its number.
#[test]
fn keys(rt: HostRuntime) -> Result<(), Fail> {
    let mut keys: Interner<u64> = Interner::new(rt.alloc());
    let first = keys.put(7)?;
    let second = keys.put(5)?;
    let again = keys.put(7)?;
    assert!(rt; first == again && first != second && is_at(&keys, second, 5));
    Ok(())
}

/// A text and a name, encrypted under the public key of the name with this number.
fn for_name(alloc: Global, number: usize) -> Result<Term, AllocError> {
    let text = variable(alloc, Sort::Text, 0)?;
    let body = pair(alloc, text, variable(alloc, Sort::Name, 1)?)?;
    enc(
        alloc,
        body,
        pubk(alloc, None, variable(alloc, Sort::Name, number)?)?,
    )
}

/// The number of such a term.
fn put(table: &mut TermTable, alloc: Global, number: usize) -> Result<Id, AllocError> {
    table.intern(&for_name(alloc, number)?)
}

/// Whether this term has this number.
fn is_there(table: &TermTable, id: Id, term: &Term) -> bool {
    id.number() < table.len() && table.term(id).same(term)
}

// Equal terms that were made apart have one number.
#[test]
fn terms(rt: HostRuntime) -> Result<(), Fail> {
    let alloc = rt.alloc();
    let mut table = TermTable::new(alloc);
    let first = put(&mut table, alloc, 2)?;
    let second = put(&mut table, alloc, 1)?;
    let again = put(&mut table, alloc, 2)?;
    assert!(rt; first == again && first != second);
    assert!(rt; is_there(&table, second, &for_name(alloc, 1)?));
    Ok(())
}
