//! Bytes written as pairs of hexadecimal digits.
#![tactic(auto)]

ghost use Rattle.std.specs.Prelude.{◌≡◌, ◌<◌, IfOk, IfSome};
ghost use Rattle.hexadecimal.specs.Hexadecimal.{digit_of, byte_of, decoded};

use std::alloc::{AllocError, Global};

/// What a lower-case digit stands for.
fn digit(code: u8) -> Option<u8>
    ensures value { result ≡ digit_of code }
    ensures small { IfSome result (λ digit. digit < 16) }
{
    match code {
        b'0'..=b'9' => Some(code - b'0'),
        b'a'..=b'f' => Some(code - b'a' + 10),
        _ => None,
    }
}

/// The byte that a pair of digits writes.
fn byte(pair: &[u8; 2]) -> Option<u8>
    ensures { result ≡ byte_of pair.now }
{
    let [high, low] = *pair;
    Some(digit(high)? * 16 + digit(low)?)
}

/// The bytes that pairs of digits write, from the front; a pair that is none is left out, and so is
/// an odd last digit.
// Not by `hex` of the toolchain, which also takes upper case, and refuses any text with such a pair or digit.
pub fn decode(heap: Global, text: &str) -> Result<Vec<u8>, AllocError>
    ensures { IfOk result (λ bytes. bytes.items ≡ decoded text.now) }
{
    let (pairs, _) = text.as_bytes().as_chunks();
    pairs.iter().filter_map(byte).collect(heap)
}
