// Strands whose values stand elsewhere too. This decides only the order in which an embedding places strands, so no contract
// speaks of it.

use cp_fingerprint::{Places, Slot, key_of};
use cp_term::Term;

/// Whether the value stands at one of these places.
fn stands_in(value: &Term, slots: &[Slot]) -> bool {
    let key = key_of(value);
    for slot in slots {
        if slot.has(key, value) {
            return true;
        }
    }
    false
}

/// Whether the value is one of the problem's, or stands on another strand.
fn is_shared(value: &Term, places: &Places, strand: usize) -> bool {
    if stands_in(value, &places.values) {
        return true;
    }
    for (number, slots) in places.strands.iter().enumerate() {
        if number == strand {
            continue;
        }
        if stands_in(value, slots) {
            return true;
        }
    }
    false
}

/// Whether all values of a strand are the problem's or stand on other strands too.
pub(crate) fn shares_all(places: &Places, strand: usize) -> bool {
    let Some(slots) = places.strands.get(strand) else {
        return true;
    };
    for slot in slots {
        if !is_shared(slot.value(), places, strand) {
            return false;
        }
    }
    true
}
