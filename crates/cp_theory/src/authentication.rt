//! The authentication test on ground messages: how a message can come to be received outside the encryptions that protect it.
ghost use Rattle.std.specs.Prelude.{◌≡◌, ◌⊎◌, Some, Bool, true, false};
ghost use Rattle.cp_model.specs.Message.{Key, Message, IsCarriedBy};
ghost use Rattle.cp_model.specs.Strand.{Protocol};
ghost use Rattle.cp_model.specs.declared.strand.Event.TheVariants.{Receive as recv};
ghost use Rattle.cp_model.specs.Bundle.{event_at, Bundle, IsBundle};
ghost use Rattle.cp_model.specs.declared.node.Node.{Node};
ghost use Rattle.cp_theory.specs.AuthenticationTest.{IsOutside, IsNoPairMessage, IsNotCreated, IsReleased, IsEncrypted, IsDecrypted};
ghost use Rattle.cp_theory.specs.Opened.{protocol, secret, locked, opened, every, heard_from_opener, heard_from_decryption, heard_from_encryption};

/// Let a message that is not a pair, and that the penetrator does not create, be received outside the protecting encryptions.
/// Then, before that, a regular strand has sent it outside, in the first event of that strand in which it stands outside; or the
/// penetrator has made it by encryption; or the penetrator has taken it out of a protecting encryption by decryption.
///
/// A message that stands outside is carried. If no encryption protects, each carried message stands outside. A message that
/// stands outside still does so when fewer encryptions protect.
pub fn authentication_test()
    ensures answered { (protocol : Protocol) (b : Bundle) → IsBundle protocol b → (protects : Message → Key → Bool) (c : Message) (n : Node) (m : Message) → event_at b.strands n ≡ Some (recv m) → IsOutside protects c m → IsNoPairMessage c → IsNotCreated b c → IsReleased b protects c n ⊎ (IsEncrypted b c n ⊎ IsDecrypted b protects c n) }
    ensures carried { (protects : Message → Key → Bool) (c m : Message) → IsOutside protects c m → IsCarriedBy c m }
    ensures unprotected { (protects : Message → Key → Bool) (c m : Message) → ((x : Message) (k : Key) → protects x k ≡ false) → IsCarriedBy c m → IsOutside protects c m }
    ensures fewer { (more fewer : Message → Key → Bool) (c m : Message) → ((x : Message) (k : Key) → fewer x k ≡ true → more x k ≡ true) → IsOutside more c m → IsOutside fewer c m }
{}

/// A text is sent under a key and received in the clear: once after a regular strand has released it, and once after the
/// penetrator has decrypted it. Its encryption is received after the penetrator has made it. All three receptions meet the
/// premises of the test.
pub fn opened_text_example()
    ensures bundle { IsBundle protocol opened }
    ensures opener_received { event_at opened.strands heard_from_opener ≡ Some (recv secret) }
    ensures decryption_received { event_at opened.strands heard_from_decryption ≡ Some (recv secret) }
    ensures encryption_received { event_at opened.strands heard_from_encryption ≡ Some (recv locked) }
    ensures text_outside { IsOutside every secret secret }
    ensures text_inside { IsOutside every secret locked → ⊥ }
    ensures encryption_outside { IsOutside every locked locked }
    ensures text_is_no_pair { IsNoPairMessage secret }
    ensures encryption_is_no_pair { IsNoPairMessage locked }
    ensures text_not_created { IsNotCreated opened secret }
    ensures encryption_not_created { IsNotCreated opened locked }
    ensures released { IsReleased opened every secret heard_from_opener }
    ensures decrypted { IsDecrypted opened every secret heard_from_decryption }
    ensures encrypted { IsEncrypted opened locked heard_from_encryption }
{}
