// Numbers that are mixed from others.
ghost use Rattle.std.specs.Prelude.{◌≡◌};
ghost use Rattle.cp_term.specs.Numbers.{mixed_with, mixed_bytes, mixed_purpose};

use cp_base::Text;

/// A number mixed from two others, in this order.
pub(crate) fn mixed(number: usize, part: usize) -> usize
    ensures { result ≡ mixed_with number part }
{
    let sum = number.wrapping_mul(1_000_003).wrapping_add(part);
    sum.wrapping_mul(sum.wrapping_mul(2).wrapping_add(1))
}

/// A number mixed from a number and bytes, in order.
pub(crate) fn mixed_bytes(number: usize, bytes: &[u8]) -> usize
    ensures { result ≡ mixed_bytes number bytes.now }
{
    let mut so_far = number;
    for byte in bytes {
        so_far = mixed(so_far, usize::from(*byte));
    }
    so_far
}

/// A number mixed from a number and the bytes of a purpose, if there is one.
pub(crate) fn mixed_purpose(number: usize, purpose: &Option<Text>) -> usize
    ensures { result ≡ mixed_purpose number purpose.now }
{
    match purpose {
        Some(text) => mixed_bytes(number, text.as_bytes()),
        None => number,
    }
}
