// The first place at which a number stands in a list.
ghost use Rattle.std.specs.Prelude.{◌≡◌};
ghost use Rattle.cp_fingerprint.specs.FirstPlaces.{first_place_of};

/// The index of the first entry equal to `place`, or the length of the list if there is none.
pub fn first_of(places: &[usize], place: usize) -> usize
    ensures exact { result ≡ first_place_of place places.now }
{
    for (number, other) in places.iter().enumerate() {
        if *other == place {
            return number;
        }
    }
    places.len()
}
