// An index of labels.
ghost use Rattle.std.specs.Prelude.{◌≡◌, nat_eq, ℕ, [], ◌∷◌, ◌++◌, if◌then◌else◌, OnOk};
ghost use Rattle.cp_search.specs.IndexedLabels.{Indexes};
ghost use Rattle.cp_search.specs.LabelsByNumber.{numbers_by};

use crate::made::Made;
use std::alloc::{AllocError, Global};
use std::collections::HashMap;

/// An index of labels, by which the one is found in which a new label is seen: the numbers of the labels by bucket key.
#[derive(Drop)]
pub(crate) struct CopyIndex {
    buckets: HashMap<usize, Vec<usize>>,
}

/// Appends a label to those with this bucket key.
fn add_to_bucket(
    alloc: Global,
    buckets: &mut HashMap<usize, Vec<usize>>,
    bucket_key: usize,
    label: usize,
) -> Result<(), AllocError>
    ensures { OnOk result ((q : ℕ) → numbers_by buckets.new (λ v. v.items) q
        ≡ (if nat_eq bucket_key q then numbers_by buckets.old (λ v. v.items) q ++ label ∷ [] else numbers_by buckets.old (λ v. v.items) q)) }
{
    let mut labels = match buckets.remove(&bucket_key) {
        Some(labels) => labels,
        None => Vec::new(alloc),
    };
    labels.push(label)?;
    buckets.insert(bucket_key, labels)?;
    Ok(())
}

impl CopyIndex {
    /// The index of no labels.
    pub(crate) fn new(alloc: Global) -> CopyIndex
        ensures { Indexes result [] }
    {
        CopyIndex {
            buckets: HashMap::new(alloc),
        }
    }

    /// Adds the label that comes after these labels, of which the index is. After an error it is of no use.
    pub(crate) fn add(
        &mut self,
        alloc: Global,
        labels: &[Made],
        made: &Made,
    ) -> Result<(), AllocError>
        ensures { OnOk result (Indexes self.old labels.now → Indexes self.new (labels.now ++ made.now ∷ [])) }
    {
        add_to_bucket(
            alloc,
            &mut self.buckets,
            made.signature.bucket_key(),
            labels.len(),
        )
    }

    /// The labels whose signatures have this bucket key, in ascending order.
    pub(crate) fn with_key(&self, bucket_key: usize) -> &[usize]
        ensures { result.now ≡ numbers_by self.now.buckets (λ v. v.items) bucket_key }
    {
        match self.buckets.get(&bucket_key) {
            Some(labels) => labels,
            None => &[],
        }
    }
}
