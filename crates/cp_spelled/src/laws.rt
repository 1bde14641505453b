// What the first misfit is.
ghost use Rattle.std.specs.Prelude.{◌≡◌, List, [], Some, None};
ghost use Rattle.cp_base.specs.declared.place.Place.{Place};
ghost use Rattle.cp_report.specs.Misfits.{IsFirstMisfit};
ghost use Rattle.cp_spelled.specs.FirstMisfit.{first_onto};

/// Noting misfits one after another finds the first of them. If nothing is found, there are none.
pub fn first_misfit_is_found()
    ensures first { (places : List Place) (p : Place) → first_onto None places ≡ Some p → IsFirstMisfit places p }
    ensures none { (places : List Place) → first_onto None places ≡ None → places ≡ [] }
{}
