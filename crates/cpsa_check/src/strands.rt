// Whether strands are alike except for their terms.
use cp_skel::{Strand, StrandShape};

/// Whether two strands are instances of roles with one name, of one height, or are both listeners.
fn is_same_shape(one: &Strand, other: &Strand) -> bool {
    match (one.shape(), other.shape()) {
        (StrandShape::Instance(a), StrandShape::Instance(b)) => {
            a.height() == b.height() && a.role().name().same(b.role().name())
        }
        (StrandShape::Listener(_), StrandShape::Listener(_)) => true,
        _ => false,
    }
}

/// Whether both have equally many strands, each alike except for its terms.
pub(crate) fn have_same_shapes(ones: &[Strand], others: &[Strand]) -> bool {
    ones.len() == others.len()
        && ones
            .iter()
            .zip(others)
            .all(|(one, other)| is_same_shape(one, other))
}
