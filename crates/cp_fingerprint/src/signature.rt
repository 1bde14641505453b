// Signatures tell skeletons apart that cannot embed in each other, before an embedding is sought.
ghost use Rattle.std.specs.Prelude.{◌≡◌, ◌↔◌, IsTrue, IfOk};
ghost use Rattle.cp_model.specs.Homomorphism.{Embeds};
ghost use Rattle.cp_model.specs.Skeleton as model;
ghost use Rattle.cp_fingerprint.specs.Signatures.{signature_of, MayEmbed};
ghost use Rattle.cp_fingerprint.specs.Isomorphic.{IsIsomorphic};

use crate::chains::chains_of;
use crate::fingerprints::{fingerprint, may_embed};
use crate::partition::Partition;
use crate::sorted_heights::Fingerprint;
use crate::weights::Weights;
use cp_skel::Skeleton;
use std::alloc::{AllocError, Global};
use std::marker::Model;

/// What an embedding must respect of a skeleton: its fingerprint; the partition of its problem's strands; and three numbers that no
/// embedding makes smaller. The bucket key counts what each role strand shares by itself, so it tells most skeletons apart at once;
/// the light share grows where it falls, if the same values stand at other places; and the third is for their orders, the sum of the
/// weights of the heaviest chains of nodes that lead to the nodes of role strands.
#[derive(Drop)]
pub struct Signature {
    fingerprint: Fingerprint,
    partition: Partition,
    bucket_key: usize,
    light_share: usize,
    chains: usize,
}

impl Model for Signature {
    ghost use Rattle.cp_fingerprint.specs.Signatures.{SignatureData, coded_signature};

    ghost Value = { SignatureData };

    ghost coded = { coded_signature };

    ghost view = { λ f. record { fingerprint = f.fingerprint; partition = f.partition; bucket_key = f.bucket_key; light_share = f.light_share; chains = f.chains } };
}

impl Signature {
    /// The signature of a skeleton.
    pub fn of(alloc: Global, k: &Skeleton) -> Result<Signature, AllocError>
        ensures exact { IfOk result (λ f. f ≡ signature_of k.now) }
    {
        let shared = Weights::of(alloc, k)?.share_numbers(alloc)?;
        Ok(Signature {
            fingerprint: fingerprint(alloc, k)?,
            partition: Partition::of(alloc, k)?,
            bucket_key: shared.bucket_key,
            light_share: shared.light_share,
            chains: chains_of(alloc, k)?,
        })
    }

    /// The bucket key, a number for how role strands share values. Isomorphic skeletons have the same one; others mostly do not.
    pub fn bucket_key(&self) -> usize
        ensures { result ≡ self.now.bucket_key }
    {
        self.bucket_key
    }

    /// Fast test: false only if no skeleton with this signature embeds in one with the other.
    pub fn may_embed(&self, other: &Signature) -> bool
        ensures exact { IsTrue result ↔ MayEmbed self.now other.now }
        ensures kept { (a b : model.Skeleton) → signature_of a ≡ self.now → signature_of b ≡ other.now → Embeds a b → IsTrue result }
    {
        if self.bucket_key > other.bucket_key {
            return false;
        }
        if self.light_share > other.light_share {
            return false;
        }
        if self.chains > other.chains {
            return false;
        }
        if !self.partition.may_embed(&other.partition) {
            return false;
        }
        may_embed(&self.fingerprint, &other.fingerprint)
    }

    /// Fast test: false only if no skeleton with this signature is isomorphic to one with the other. True if each may embed in
    /// the other.
    pub fn may_be_isomorphic(&self, other: &Signature) -> bool
        ensures exact { IsTrue result ↔ (MayEmbed self.now other.now × MayEmbed other.now self.now) }
        ensures kept { (a b : model.Skeleton) → signature_of a ≡ self.now → signature_of b ≡ other.now → IsIsomorphic a b → IsTrue result }
    {
        if self.chains != other.chains {
            return false;
        }
        self.may_embed(other) && other.may_embed(self)
    }
}
