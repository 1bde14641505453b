// The law of generated texts.
ghost use Rattle.std.specs.Prelude.{◌≡◌, ◌≤◌, ℕ, [], ◌∷◌, length, map, filter_map};
ghost use Rattle.cp_generate.specs.Generated.{generated_parts, generated_text, protocol_form, problem_forms_from, generated_forms, problem_over_protocol};
ghost use Rattle.cp_language.specs.Input.{stated, faults_of, input_of};
ghost use Rattle.cp_sexpr.specs.Spelling.{top_spelling};
ghost use Rattle.cp_sexpr.specs.Written.{IsWritten};

/// Law: the text for up to 500 problems is short enough to be read; the text for any number of problems is read as its forms,
/// each of its parts is the normal spelling of one of them, and they are well formed and state so many problems, the two in turn.
#[tactic(auto, using(crate::proofs::Lengths::text_short, crate::proofs::TextRead::text_read, crate::proofs::Spelled::parts_spelled, crate::proofs::WellFormed::forms_faultless, crate::proofs::WellFormed::forms_stated, crate::proofs::WellFormed::forms_counted))]
pub fn generated_text_is_accepted()
    ensures short { (n : ℕ) → n ≤ 500 → length (generated_text n) ≤ 1048576 }
    ensures read { (n : ℕ) → IsWritten (generated_text n) (generated_forms n) }
    ensures spelled { (n : ℕ) → generated_parts n ≡ map top_spelling (protocol_form ∷ problem_forms_from 0 n) }
    ensures well_formed { (n : ℕ) → faults_of (generated_forms n) ≡ [] }
    ensures in_turn { (n : ℕ) → filter_map stated (input_of (generated_forms n)) ≡ map problem_over_protocol (problem_forms_from 0 n) }
    ensures problems { (n : ℕ) → length (filter_map stated (input_of (generated_forms n))) ≡ n }
{}
