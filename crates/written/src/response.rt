// The response that opens a place.
ghost use Rattle.std.specs.Prelude.{◌≡◌, ◌≤◌};
ghost use Rattle.arrayvec.specs.ArrayVec.{array_vec_len};
ghost use Rattle.wire.specs.Varints.{varint_bytes};
ghost use Rattle.packets.specs.Written.{type_number, response_bytes};
ghost use Rattle.written.specs.Fronts.{opening_bytes, response_end, response_over};
ghost use Rattle.written.specs.Laws.{ResponsesReturn};

use crate::bytes::append;
use arrayvec::ArrayVec;
use checksum::Checksum;
use packets::ChecksumInfo;
use wire::{WriteFault, write_varint};

// The number of a type of checksum.
// Stays: the numbers are a protocol's, and `checksum` knows of none.
fn number_of_type(kind: Checksum) -> u8
    ensures { result ≡ type_number kind }
{
    match kind {
        Checksum::Crc32 => 1,
        Checksum::Crc32c => 2,
    }
}

// The varint of a number by itself.
#[tactic(auto, using(crate::proofs::Responses::varints))]
fn varint(value: u32) -> ArrayVec<u8, 10>
    ensures value { result.items ≡ varint_bytes value }
    ensures short { array_vec_len result ≤ 10 }
{
    // Stays: `write_varint` writes into a buffer that it is lent.
    let mut bytes = [0; 10];
    let end = write_varint(value as u64, &mut bytes, 0).unwrap();
    let mut varint = ArrayVec::from(bytes);
    varint.truncate(end);
    varint
}

// What comes before the bytes of a run, of which there are `len`: the parts are short, so the varints of their lengths are one byte.
fn opening(number: u8, len: u8) -> [u8; 9]
    requires { len ≤ 10 }
    ensures { result ≡ opening_bytes number len }
{
    [0x08, 0, 0x22, len + 7, 0x0a, len + 3, 0x08, number, 0x10]
}

#[tactic(auto, using(crate::proofs::Responses::responses))]
fn response(info: Option<ChecksumInfo>) -> ArrayVec<u8, 24>
    ensures { result.items ≡ response_bytes info }
{
    let mut bytes = ArrayVec::new();
    match info {
        None => append(&mut bytes, &[0x08, 0]),
        Some(info) => {
            let run = varint(info.bytes_per_checksum);
            append(
                &mut bytes,
                &opening(number_of_type(info.kind), run.len() as u8),
            );
            append(&mut bytes, &run);
            append(&mut bytes, &[0x10, 0]);
        }
    }
    bytes
}

// Writes the response that says by what data are checked, and says how long it is; a buffer with no room is left as it was.
#[tactic(auto, using(crate::proofs::ResponsesBack::responses_return))]
pub fn write_response(info: Option<ChecksumInfo>, out: &mut [u8]) -> Result<usize, WriteFault>
    ensures says_its_length { result ≡ response_end info out.old }
    ensures writes_the_response { out.new ≡ response_over info out.old }
    ensures is_read_back { ResponsesReturn }
{
    let bytes = response(info);
    let end = bytes.len();
    if out.len() < end {
        return Err(WriteFault::Short);
    }
    out[..end].copy_from_slice(&bytes);
    Ok(end)
}
