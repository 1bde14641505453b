// Maps between skeletons.
ghost use Rattle.std.specs.Prelude.{◌≡◌};
ghost use Rattle.cp_model.specs.Homomorphism.{mapped, strand_in};
ghost use Rattle.cp_hom.specs.Maps.{map_view};

use cp_skel::Node;
use cp_unify::Subst;

/// A map from a skeleton to another: for each strand the number of its image, and for variables their terms. A strand past the
/// end of the list, and a variable without a binding, stay as they are.
#[derive(Drop)]
pub struct Map {
    pub strands: Vec<usize>,
    pub values: Subst,
}

/// The image of a strand: the entry at its place, or the strand itself past the end.
fn image(strands: &[usize], strand: usize) -> usize
    ensures { result ≡ strand_in strands.now strand }
{
    match strands.get(strand) {
        Some(image) => *image,
        None => strand,
    }
}

impl Map {
    /// The image of a strand.
    pub fn strand(&self, strand: usize) -> usize
        ensures { result ≡ (map_view self.now).strands strand }
    {
        image(&self.strands, strand)
    }

    /// The image of a node: the node with the same index on the image of its strand.
    pub fn node(&self, node: Node) -> Node
        ensures { result ≡ mapped (map_view self.now) node }
    {
        Node {
            strand: self.strand(node.strand),
            index: node.index,
        }
    }
}
