// The skeletons that fitting items state.
ghost use Rattle.std.specs.Prelude.{◌≡◌, List, []};
ghost use Rattle.cp_base.specs.declared.place.Place.{Place};
ghost use Rattle.cp_lists.specs.Lists.{IsIn};
ghost use Rattle.cp_model.specs.Strand.{Role};
ghost use Rattle.cp_model.specs.Skeleton.{IsSkeleton};
ghost use Rattle.cp_sexpr.specs.Syntax.{Form};
ghost use Rattle.cp_language.specs.Problems.{Problem};
ghost use Rattle.cp_skel.specs.Sound.{IsSound};
ghost use Rattle.cp_model.specs.Declares.{DeclaresItsVariables};
ghost use Rattle.cp_report.specs.Skeletons.{strands_misfits, around_strands_misfits, skeleton_stated};

/// If the items of a label form that state its skeleton fit, it is a skeleton over the protocol of the problem. It is
/// sound if the roles of that protocol declare the variables of their events.
pub fn fitting_items_state_sound_skeletons()
    ensures skeleton { (p : Problem) (at : Place) (items : List Form) → strands_misfits p items ≡ [] → around_strands_misfits p at items ≡ []
        → IsSkeleton p.protocol (skeleton_stated p items) }
    ensures sound { (p : Problem) (at : Place) (items : List Form) → ((role : Role) → IsIn role p.protocol.roles → DeclaresItsVariables role)
        → strands_misfits p items ≡ [] → around_strands_misfits p at items ≡ [] → IsSound (skeleton_stated p items) }
{}
