// Laws of reading and spelling, for all texts and forms.
ghost use Rattle.std.specs.Prelude.{◌≡◌, ◌≤◌, ℕ, List, Result, Ok};
ghost use Rattle.cp_base.specs.declared.place.Refusal.{Refusal as RefusalData};
ghost use Rattle.cp_sexpr.specs.Reading.{IsReading};
ghost use Rattle.cp_sexpr.specs.Written.{max_depth};
ghost use Rattle.cp_sexpr.specs.ReadBack.{IsSpellable, AreSpellable, depth, depth_of, top_spellings, ReadsAs};
ghost use Rattle.cp_sexpr.specs.Spelling.{spelling};
ghost use Rattle.cp_sexpr.specs.Syntax.{Form as FormData, Forms, none, more};

/// A text has exactly one reading: its forms, or its first fault.
pub fn one_reading()
    // It has at least one.
    ensures exists { (text : List ℕ) → (a : Result Forms RefusalData) × IsReading text a }
    // It has at most one.
    ensures only { (text : List ℕ) (a b : Result Forms RefusalData) → IsReading text a
        → IsReading text b → a ≡ b }
{}

/// Forms that reading gives are read back from their normal spelling, up to their places.
pub fn reads_back()
    // What reading gives can be spelled.
    ensures given { (text : List ℕ) (fs : Forms) → IsReading text (Ok fs)
        → AreSpellable fs × (depth_of fs ≤ max_depth) }
    // A form that can be spelled is read back from its spelling.
    ensures form { (f : FormData) → IsSpellable f → depth f ≤ max_depth → ReadsAs (spelling f) (more f none) }
    // So are top forms, one after another.
    ensures top_forms { (fs : Forms) → AreSpellable fs → depth_of fs ≤ max_depth → ReadsAs (top_spellings fs) fs }
{}
