// Tells the transmissions of a role from its receptions.
ghost use Rattle.std.specs.Prelude.{◌≡◌, ◌<◌, ◌+◌, ◌^◌, Some, length, true, false};
ghost use Rattle.cp_lists.specs.Lists.{item_at};
ghost use Rattle.cp_model.specs.declared.strand.Event.TheVariants.{Send as send, Receive as recv};
ghost use Rattle.cp_model.specs.Term.{Term as Plain};
ghost use Rattle.cp_cohort.specs.Children.{NeverSends};

use cp_pattern::may_carry;
use cp_skel::{Event, Role};
use cp_term::Term;
use std::rc::Rc;

/// Whether the event at this index is a transmission; otherwise it is a reception. The height that includes the event fits in 64
/// bits.
pub(crate) fn is_sent(role: &Rc<Role>, index: usize) -> bool
    requires { index < length role.now.value.trace }
    ensures height { index + 1 < 2 ^ 64 }
    ensures sent { result ≡ true → (t : Plain) × (item_at role.now.value.trace index ≡ Some (send t)) }
    ensures received { result ≡ false → (t : Plain) × (item_at role.now.value.trace index ≡ Some (recv t)) }
{
    let events = role.trace();
    match &events[index] {
        Event::Send(_) => true,
        Event::Receive(_) => false,
    }
}

/// Whether the event at this index is a transmission whose message may carry what values make equal to the critical term.
pub(crate) fn may_send(role: &Rc<Role>, index: usize, critical: &Term) -> bool
    requires { index < length role.now.value.trace }
    ensures height { index + 1 < 2 ^ 64 }
    ensures sent { result ≡ true → (t : Plain) × (item_at role.now.value.trace index ≡ Some (send t)) }
    ensures never { result ≡ false → NeverSends critical.now role.now.value.trace index }
{
    if !is_sent(role, index) {
        return false;
    }
    let events = role.trace();
    may_carry(events[index].payload(), critical)
}
