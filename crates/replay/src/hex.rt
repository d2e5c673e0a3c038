// Bytes from words of two hex digits a byte, in small letters alone.
ghost use Rattle.std.specs.Prelude.{◌<◌, IfSome};

use crate::fault::Fault;
use std::alloc::Global;

fn value_of(digit: u8) -> Option<u8>
    ensures { IfSome result (λ v. v < 16) }
{
    match digit {
        b'0'..=b'9' => Some(digit - b'0'),
        b'a'..=b'f' => Some(digit - b'a' + 10),
        // Stays: nothing is handed on here: any other byte is no digit.
        _ => None,
    }
}

fn read_byte(digits: &[u8]) -> Option<u8> {
    let [high, low] = <[u8; 2]>::try_from(digits).ok()?;
    Some(value_of(high)? * 16 + value_of(low)?)
}

pub(crate) fn read_bytes(heap: Global, word: &str) -> Result<Vec<u8>, Fault> {
    let mut bytes = Vec::new(heap);
    for digits in word.as_bytes().chunks(2) {
        bytes.push(read_byte(digits).ok_or(Fault::Form)?)?;
    }
    Ok(bytes)
}
