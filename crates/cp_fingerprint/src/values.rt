// Values beside their sums, and their numbers among them.
ghost use Rattle.std.specs.Prelude.{◌≡◌, ◌<◌, ◌≤◌, ◌++◌, ◌∷◌, [], map, take, OnOk};
ghost use Rattle.cp_fingerprint.specs.Values.{IsFoundAmong, IsAbsent};

use crate::sums::ValueSum;
use cp_term::{Term, TermTable};
use std::alloc::AllocError;

/// How many values are looked for one after another.
pub(crate) const FEW: usize = 16;

/// The first few values.
fn few_of(values: &[ValueSum]) -> &[ValueSum]
    ensures { result.now ≡ take 16 values.now }
{
    if values.len() < FEW {
        return values;
    }
    let (few, _) = values.split_at(FEW);
    few
}

/// The number of the first value that is this one, if one is.
fn place_among(values: &[ValueSum], value: &Term) -> Option<usize>
    ensures { IsFoundAmong value.now (map (λ v. v.value) values.now) result }
{
    for (number, other) in values.iter().enumerate() {
        if other.value.same(value) {
            return Some(number);
        }
    }
    None
}

/// The number of the first value that is this one, if it is one of the first few.
pub(crate) fn find_among_few(values: &[ValueSum], value: &Term) -> Option<usize>
    ensures { IsFoundAmong value.now (map (λ v. v.value) (take 16 values.now)) result }
{
    place_among(few_of(values), value)
}

/// Puts the value with this number into the table, unless it is one of the first few.
pub(crate) fn keep(more: &mut TermTable, number: usize, value: &Term) -> Result<(), AllocError>
    ensures few { number < 16 → OnOk result (more.new ≡ more.old) }
    ensures further { 16 ≤ number → IsAbsent value.now more.old → OnOk result (more.new ≡ more.old ++ value.now ∷ []) }
{
    if number < FEW {
        return Ok(());
    }
    more.intern(value)?;
    Ok(())
}
