//! An example of narrowing.
ghost use Rattle.cp_model.specs.Term.{text_variable};
ghost use Rattle.cp_theory.specs.RepeatedText.{unique_text, two_say_it, repeated};
ghost use Rattle.cp_normal.specs.NormalForms.{IsMisplaced, IsNormalFormOf};
ghost use Rattle.cp_collapse.specs.Directed.{IsMostGeneralFor};
ghost use Rattle.cp_normal.specs.Example.{heard_is_said, repeated_after_speaker};

/// A speaker says a text that originates uniquely. A repeater hears some text and says the speaker's text too, so that text
/// is misplaced at the repeater. Narrowing unifies what the repeater hears with what it says, and orders its hearing after the
/// speaker's saying.
pub fn misplaced_text_example()
    ensures misplaced { IsMisplaced two_say_it unique_text repeated }
    ensures most_general { IsMostGeneralFor unique_text.value (text_variable 1) heard_is_said }
    ensures form { IsNormalFormOf two_say_it repeated_after_speaker }
{}
