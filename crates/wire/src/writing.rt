// Varints as they are written, in the shortest form.
ghost use Rattle.std.specs.Prelude.{◌≡◌, length};
ghost use Rattle.wire.specs.Faults.{write_number_of};
ghost use Rattle.wire.specs.Varints.{varint_bytes};
ghost use Rattle.wire.specs.Writes.{place_after, bytes_after};

use crate::varints::MOST_BYTES;

#[derive(Clone, Copy, PartialEq, Eq, Debug)]
pub enum WriteFault {
    // The buffer ends before the varint does.
    Short = 5,
}

impl WriteFault {
    // Stays: a trait for the enums that number themselves would want a crate below them all, for this one line.
    pub fn number(self) -> u8
        ensures { result ≡ write_number_of self }
    {
        self as u8
    }
}

// How many bytes the varint of a number has: so many groups of seven bits leave nothing of it.
fn count_groups(value: u64) -> usize
    ensures { result ≡ length (varint_bytes value) }
{
    (1..MOST_BYTES)
        .find(|count| value >> (7 * *count) == 0)
        .unwrap_or(MOST_BYTES)
}

// Writes the varint of a number over a part as long as it; all its bytes but the last say that another follows.
#[tactic(auto, using(crate::proofs::Puts::putting))]
fn put_groups(value: u64, part: &mut [u8])
    requires { length part.old ≡ length (varint_bytes value) }
    ensures { part.new ≡ varint_bytes value }
{
    let last = part.len() - 1;
    let mut left = value;
    for byte in part[..last].iter_mut() {
        *byte = 128 + (left % 128) as u8;
        left /= 128;
    }
    part[last] = left as u8;
}

// Writes the varint of a number at a place, and says the place after it; a buffer with no room is left as it was.
pub fn write_varint(value: u64, out: &mut [u8], at: usize) -> Result<usize, WriteFault>
    ensures says_the_place_after { result ≡ place_after value out.old at }
    ensures writes_the_varint { out.new ≡ bytes_after value out.old at }
{
    let end = at
        .checked_add(count_groups(value))
        .filter(|end| *end <= out.len())
        .ok_or(WriteFault::Short)?;
    put_groups(value, &mut out[at..end]);
    Ok(end)
}
