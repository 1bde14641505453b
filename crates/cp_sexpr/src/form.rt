// A form.
use cp_base::{Place, Text};

/// A form, with the place of its first byte.
#[derive(Drop)]
pub enum Form {
    /// A symbol: its bytes.
    Symbol(Place, Text),
    /// A string: the bytes between its quotes.
    String(Place, Text),
    /// A number, of at most nine digits if it was read.
    Number(Place, usize),
    /// A list: its items.
    List(Place, Vec<Form>),
}
