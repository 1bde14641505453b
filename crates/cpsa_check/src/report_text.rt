// The forms of a report.
use crate::stopped::Stopped;
use cp_sexpr::{Form, MAX_LENGTH, read};
use std::alloc::Global;
use std::io::Read;

/// How many bytes are read: one more than a text may have.
const MOST_BYTES: u64 = MAX_LENGTH as u64 + 1;

/// The forms of the text that is read, if it is not too long.
pub(crate) fn forms_in<R: Read + Drop>(alloc: Global, input: R) -> Result<Vec<Form>, Stopped> {
    let mut text = Vec::new(alloc);
    if let Err(error) = input.take(MOST_BYTES).read_to_end(&mut text) {
        return Err(Stopped::memory_or(error, Stopped::ReadFault));
    }
    if text.len() > MAX_LENGTH {
        return Err(Stopped::TooLong);
    }
    read(alloc, &text).map_err(|error| Stopped::from(error))
}
