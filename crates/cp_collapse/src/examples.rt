// An example of collapses.
ghost use Rattle.std.specs.Prelude.{[], ◌∷◌};
ghost use Rattle.cp_collapse.specs.Collapses.{AreCollapses};
ghost use Rattle.cp_collapse.specs.CollapseExample.{two_repeaters, one_repeater};

/// Of two repeaters, one has heard a text, and the other has heard one and said one. Their only collapse identifies them: one
/// repeater at the first one's place, which has heard one text and said one.
pub fn two_strands_of_one_role_example()
    ensures { AreCollapses two_repeaters (one_repeater ∷ []) }
{}
