//! An example that meets the premises of the laws.
ghost use Rattle.std.specs.Prelude.{◌≢◌, [], ◌∷◌};
ghost use Rattle.cp_lists.specs.Lists.{IsIn};
ghost use Rattle.cp_model.specs.Bundle.{IsBundle};
ghost use Rattle.cp_model.specs.Skeleton.{IsSkeleton};
ghost use Rattle.cp_model.specs.Standing.{StandsIn, StandsApart};
ghost use Rattle.cp_model.specs.Realisation.{OriginatesAtTerm};
ghost use Rattle.cp_theory.specs.Normal.{AreBranches, IsOriginPair, skeleton_under};
ghost use Rattle.cp_theory.specs.RepeatedText.{protocol, unique_text, two_say_it, repeated, heard_and_said, standing, merging, from_speaker};

/// A speaker says a text that originates uniquely. A repeater says it too, and the skeleton does not say that the repeater heard
/// it. The skeleton stands apart in a bundle. The text originates elsewhere than at its recorded origin, so there is one branch,
/// in which the repeater heard it; in that branch the speaker comes before the repeater.
pub fn repeated_text_example()
    ensures skeleton { IsSkeleton protocol two_say_it }
    ensures bundle { IsBundle protocol heard_and_said }
    ensures stands { StandsIn two_say_it heard_and_said standing }
    ensures apart { StandsApart two_say_it standing }
    ensures listed { IsIn unique_text two_say_it.assumptions.uniquely_originating }
    ensures originates { OriginatesAtTerm two_say_it unique_text.value repeated }
    ensures elsewhere { repeated ≢ unique_text.origin }
    ensures branches { AreBranches two_say_it unique_text.value repeated (skeleton_under merging two_say_it ∷ []) }
    ensures origin_pair { IsOriginPair (skeleton_under merging two_say_it) from_speaker }
{}
