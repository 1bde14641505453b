// A law of numbers of keys: the contract of a function that does nothing.
ghost use Rattle.std.specs.Prelude.{◌≡◌, ◌↔◌, ℕ, List, slice_get, Some, IsTrue};
ghost use Rattle.std.specs.List.{IsDistinct};

use std::hash::Hash;

/// Of keys that are distinct, the numbers of two are equal exactly where the keys are.
#[tactic(auto, using(crate::proofs::Places::same_places))]
pub fn ids_tell_keys_apart<K: Eq + Hash>()
    ensures { (keys : List K) (i j : ℕ) (x y : K) → IsDistinct K.eq keys → slice_get keys i ≡ Some x
        → slice_get keys j ≡ Some y → (i ≡ j) ↔ IsTrue (K.eq x y) }
{}
