// The labels made so far.
ghost use Rattle.std.specs.Prelude.{◌≡◌, ◌<◌, [], length, Some, IfSome, IfOk, OnOk};
ghost use Rattle.cp_lists.specs.Lists.{item_at};
ghost use Rattle.cp_fingerprint.specs.Signatures.{signature_of};
ghost use Rattle.cp_shapes.specs.Shapes.{FindsLeast};
ghost use Rattle.cp_search.specs.MadeLabels.{AreFound, IsFoundApart, IsSeenIn, MayBeSeen, AddsFound};

use crate::copy_index::CopyIndex;
use crate::isomorphism::are_isomorphic;
use crate::made::Made;
use crate::reachability::Reachability;
use std::alloc::{AllocError, Global};
use std::marker::Model;
use std::mem;

/// The labels made so far, in order. What is found of each as it is made is true.
#[derive(Drop)]
pub(crate) struct MadeLabels {
    all: Vec<Made>,
    index: CopyIndex,
    reachability: Reachability,
}

impl Model for MadeLabels {
    ghost use Rattle.std.specs.Prelude.{List};
    ghost use Rattle.std.specs.Coded.{coded_list};
    ghost use Rattle.cp_search.specs.declared.made.Made as program;
    ghost use Rattle.cp_search.specs.contracts.made.Made as made;

    ghost Value = { List program.Made };

    ghost coded = { coded_list made.the_row.coded };

    ghost view = { λ l. l.all.items };

    ghost use Rattle.cp_search.specs.MadeLabels.{AreFound};
    ghost use Rattle.cp_search.specs.IndexedLabels.{Indexes};
    ghost use Rattle.cp_search.specs.Reachability.{IsReachability};

    ghost invariant = { λ l. Indexes l.index l.all.items × AreFound l.all.items × IsReachability l.reachability l.all.items };
}

impl MadeLabels {
    /// No labels.
    pub(crate) fn new(alloc: Global) -> MadeLabels
        ensures { result ≡ [] }
    {
        MadeLabels {
            all: Vec::new(alloc),
            index: CopyIndex::new(alloc),
            reachability: Reachability::new(alloc),
        }
    }

    /// What is found of each label is true.
    pub(crate) fn are_found(&self)
        ensures { AreFound self.now }
    {
        let _ = &self.all;
    }

    /// The number of labels.
    pub(crate) fn len(&self) -> usize
        ensures { result ≡ length self.now }
    {
        self.all.len()
    }

    /// The labels, in their order.
    pub(crate) fn all(&self) -> &[Made]
        ensures { result.now ≡ self.now }
    {
        &self.all
    }

    /// The label with this number.
    pub(crate) fn label(&self, number: usize) -> &Made
        requires { number < length self.now }
        ensures { item_at self.now number ≡ Some result.now }
    {
        &self.all[number]
    }

    /// The first label that is isomorphic to the new one and from which its parent cannot be reached. Only labels whose signatures
    /// have the same bucket key are compared.
    fn first_copy(&self, alloc: Global, made: &Made) -> Result<Option<usize>, AllocError>
        requires signature { made.now.signature ≡ signature_of made.now.skeleton }
        requires parent { IfSome made.now.parent (λ p. p < length self.now) }
        ensures { IfOk result (FindsLeast (MayBeSeen self.now made.now.parent made.now.skeleton)) }
    {
        let numbers = self.index.with_key(made.signature.bucket_key());
        for number in numbers {
            if self.reachability.leads(*number, made.parent) {
                continue;
            }
            let other = self.label(*number);
            if !other.signature.may_be_isomorphic(&made.signature) {
                continue;
            }
            if are_isomorphic(alloc, &other.skeleton, &made.skeleton)? {
                return Ok(Some(*number));
            }
        }
        Ok(None)
    }

    /// The label in which a new one is seen: none if it is dead, and otherwise the first that is isomorphic to it and from which
    /// its parent cannot be reached.
    pub(crate) fn seen_in(&self, alloc: Global, made: &Made) -> Result<Option<usize>, AllocError>
        requires signature { made.now.signature ≡ signature_of made.now.skeleton }
        requires parent { IfSome made.now.parent (λ p. p < length self.now) }
        ensures { IfOk result (IsSeenIn self.now made.now) }
    {
        if made.dead {
            return Ok(None);
        }
        self.first_copy(alloc, made)
    }

    /// Appends a label, of which all is found. After an error the labels are of no use.
    pub(crate) fn push(&mut self, alloc: Global, made: Made) -> Result<(), AllocError>
        requires apart { IsFoundApart made }
        requires parent { IfSome made.parent (λ p. p < length self.old) }
        requires seen { IsSeenIn self.old made made.seen_in }
        ensures pushed { OnOk result (AddsFound made self.old self.new) }
    {
        let MadeLabels {
            mut all,
            mut index,
            mut reachability,
        } = mem::replace(self, MadeLabels::new(alloc));
        index.add(alloc, &all, &made)?;
        reachability.add(alloc, &all, &made)?;
        all.push(made)?;
        *self = MadeLabels {
            all,
            index,
            reachability,
        };
        Ok(())
    }

    /// The labels, in their order, and nothing else.
    pub(crate) fn into_all(self) -> Vec<Made>
        ensures { result.items ≡ self }
    {
        let MadeLabels { all, .. } = self;
        all
    }
}
