// The shares of places of which the weights of the values are known. Their sums and products saturate.
ghost use Rattle.std.specs.Prelude.{◌≡◌, map};
ghost use Rattle.cp_fingerprint.specs.Weights.{placed_from, lightened};

use crate::chain_table::number_at;

/// The weight of a place, and the number of the value that stands there.
#[derive(Clone, Copy)]
pub(crate) struct Place {
    pub(crate) weight: usize,
    pub(crate) number: usize,
}

/// The shares of some places: the sum, over the places, of the place's weight times its value's weight; and the same where the
/// places are the heavier the lighter they are.
#[derive(Clone, Copy)]
pub(crate) struct Shares {
    pub(crate) heavy: usize,
    pub(crate) light: usize,
}

/// The shares of some places, where these are the weights of the values by their numbers.
pub(crate) fn shares_of(places: &[Place], weights: &[usize]) -> Shares
    ensures heavy { result.heavy ≡ placed_from weights.now 0 places.now }
    ensures light { result.light ≡ placed_from weights.now 0 (map lightened places.now) }
{
    let mut heavy: usize = 0;
    let mut light: usize = 0;
    for place in places {
        let weight = number_at(weights, place.number);
        let lightness = 4093usize.saturating_sub(place.weight);
        heavy = heavy.saturating_add(place.weight.saturating_mul(weight));
        light = light.saturating_add(lightness.saturating_mul(weight));
    }
    Shares { heavy, light }
}
