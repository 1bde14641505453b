// What the answers of the commands come to.
ghost use Rattle.std.specs.Prelude.{◌≡◌, ◌↔◌, ◌⊎◌, ℕ, List, Option, true};
ghost use Rattle.cp_app.specs.Headline.{AreWellFormed, AreFaulty};
ghost use Rattle.cp_app.specs.Commands.{reads, Accepts, Answers, Refuses};
ghost use Rattle.cp_app.specs.Details.{AnswersInDetail};
ghost use Rattle.cp_app.specs.Answered.{HasAnswered, HasBrokenOff};
ghost use Rattle.cp_app.specs.Reported.{HasReported, HasReportedSearch, HasReportedReadBack, HasReportedTruth, HasBrokenOffReport, HasBrokenOffSearch};
ghost use Rattle.cp_base.specs.declared.place.Refusal.{Refusal as RefusalData};
ghost use Rattle.cp_base.specs.declared.status.Status.{Status as StatusData};
ghost use Rattle.cp_sexpr.specs.Syntax.{Forms};
ghost use Rattle.cp_words.specs.declared.command.Command.{Command as CommandData};
ghost use Rattle.cp_words.specs.declared.command.CommandName.TheVariants.{Analyse, Shapes};

/// Law: an answer of `analyse` or `shapes` is a report on the whole input, which was read to its end, with trees that are true of
/// their problems. In detail, its trees are those of the search; the forms of the whole report, and the text of `analyse` if it can
/// be read, are read back as these trees; and the trees that these forms denote are true of their problems. An answer of which only
/// a prefix was put is such a report too.
pub fn answers_are_reports()
    ensures reported { (command : CommandData) (input before : List ℕ) (left_new held_new : Option (List ℕ)) (s : StatusData)
        → reads command.name ≡ true → HasAnswered (Answers command) command input before left_new held_new s → HasReported command input before left_new held_new s }
    ensures searched { (command : CommandData) (input before : List ℕ) (left_new held_new : Option (List ℕ)) (s : StatusData)
        → reads command.name ≡ true → HasAnswered (AnswersInDetail command) command input before left_new held_new s → HasReportedSearch command input before left_new held_new s }
    ensures read_back { (command : CommandData) (input before : List ℕ) (left_new held_new : Option (List ℕ)) (s : StatusData)
        → reads command.name ≡ true → HasAnswered (AnswersInDetail command) command input before left_new held_new s → HasReportedReadBack command input before left_new held_new s }
    ensures denoted { (command : CommandData) (input before : List ℕ) (left_new held_new : Option (List ℕ)) (s : StatusData)
        → reads command.name ≡ true → HasAnswered (AnswersInDetail command) command input before left_new held_new s → HasReportedTruth command input before left_new held_new s }
    ensures broken_off { (command : CommandData) (input before : List ℕ) (left_new held_new : Option (List ℕ))
        → reads command.name ≡ true → HasBrokenOff (Answers command) command input before left_new held_new → HasBrokenOffReport command input before left_new held_new }
    ensures searched_before_fault { (command : CommandData) (input before : List ℕ) (left_new held_new : Option (List ℕ))
        → reads command.name ≡ true → HasBrokenOff (AnswersInDetail command) command input before left_new held_new → HasBrokenOffSearch command input before left_new held_new }
{}

/// Law: `analyse` and `shapes` alone read, accept exactly well-formed forms, and refuse others for their first fault.
pub fn well_formed_input_is_accepted()
    ensures reads { (command : CommandData) → (reads command.name ≡ true) ↔ ((command.name ≡ Analyse) ⊎ (command.name ≡ Shapes)) }
    ensures accepts { (command : CommandData) (fs : Forms) → reads command.name ≡ true → Accepts command fs ↔ AreWellFormed fs }
    ensures refuses { (command : CommandData) (fs : Forms) (r : RefusalData) → reads command.name ≡ true → Refuses command fs r ↔ AreFaulty fs r }
{}
