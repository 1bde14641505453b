// A report printed again, from what was read of it alone.
use crate::report_text::forms_in;
use crate::stopped::Stopped;
use cp_load::Input;
use cp_print::print;
use cp_readback::{Report, read_back};
use std::alloc::Global;
use std::io::Read;

/// The report that is read, printed again from the input and the trees that were read.
pub(crate) fn printed_again<R: Read + Drop>(alloc: Global, input: R) -> Result<Vec<u8>, Stopped> {
    let forms = forms_in(alloc, input)?;
    let Report { entries, trees } = read_back(alloc, &forms)?;
    let mut again = Vec::new(alloc);
    print(alloc, &Input { entries }, &trees, &mut again)?;
    Ok(again)
}
