// Patterns.
ghost use Rattle.cp_language.specs.Printed.{pattern_form};
ghost use Rattle.cp_language.specs.Report.{named_by};

use crate::terms::put_term;
use crate::variable_names::Naming;
use crate::writing::Printed;
use cp_base::Growing;
use cp_names::locals_of;
use cp_term::{Pattern, Text};
use std::alloc::Global;

impl Printed for Pattern {
    ghost printed = { λ names. pattern_form (named_by names) };

    fn put(&self, alloc: Global, names: &[Text], out: &mut Growing<u8>) {
        let Ok(locals) = locals_of(alloc, self) else {
            return out.fail();
        };
        let naming = Naming {
            names,
            locals: &locals,
        };
        put_term(&naming, self.term(), out);
    }
}
