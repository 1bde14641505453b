//! Examples that meet the premises of the cohort law.
ghost use Rattle.std.specs.Prelude.{[], ◌∷◌};
ghost use Rattle.cp_model.specs.Skeleton.{IsSkeleton};
ghost use Rattle.cp_theory.specs.Critical.{IsTest};
ghost use Rattle.cp_theory.specs.Guards.{Guards};
ghost use Rattle.cp_theory.specs.Covering.{IsCovering};
ghost use Rattle.cp_theory.specs.NoneLeftOut.{IsComplete, IsMapInRange};
ghost use Rattle.cp_theory.specs.EncryptionExamples.{protocol, locked, heard, reception, sent_before};
ghost use Rattle.cp_theory.specs.LetOut as let_out;

/// An encryption is heard, under a non-originating key. It is not derivable there, and the empty set of patterns guards the test.
/// One skeleton covers it, in which a strand of the one role that sends such encryptions has sent it before; a listener on the
/// key would hear a non-originating value. So wherever the encryption is heard, such a strand has sent it.
pub fn heard_encryption_example()
    ensures skeleton { IsSkeleton protocol heard }
    ensures in_range { IsMapInRange heard }
    ensures test { IsTest heard reception locked }
    ensures guards { Guards [] heard reception locked }
    ensures covering { IsCovering protocol heard reception locked [] (sent_before ∷ []) }
    ensures leaves_none_out { IsComplete protocol heard (sent_before ∷ []) }
{}

/// A text that originates uniquely is sent under a non-originating key, and then heard in the clear. It is not derivable there,
/// and the encryption that was sent, as a pattern without locals, guards the test. One skeleton covers it, in which a strand of
/// another role has opened that encryption. Under another key that strand would have heard the text before; a second strand that
/// sends the text would be a second origin; a listener on the key would hear a non-originating value.
pub fn opened_encryption_example()
    ensures skeleton { IsSkeleton let_out.protocol let_out.let_out }
    ensures in_range { IsMapInRange let_out.let_out }
    ensures test { IsTest let_out.let_out let_out.reception let_out.secret }
    ensures guards { Guards (let_out.sent_encryption ∷ []) let_out.let_out let_out.reception let_out.secret }
    ensures covering { IsCovering let_out.protocol let_out.let_out let_out.reception let_out.secret (let_out.sent_encryption ∷ []) (let_out.answer_opened ∷ []) }
    ensures leaves_none_out { IsComplete let_out.protocol let_out.let_out (let_out.answer_opened ∷ []) }
{}
