// How labels are resolved.
use crate::expanded_box::ExpandedBox;
use cp_skel::Mark;

/// How a label is resolved. A leaf has its mark, or `None` while it may be a shape. `Generalised` holds the number of the label
/// to which it generalises.
#[derive(Drop)]
pub(crate) enum Resolved {
    Leaf(Option<Mark>),
    Generalised(usize),
    Expanded(ExpandedBox),
}
