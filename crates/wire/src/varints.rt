// Varints: numbers of up to 64 bits in groups of seven, the lowest group first.
ghost use Rattle.std.specs.Prelude.{◌≡◌, ℕ, ◌+◌, ◌^◌, ◌<◌, ◌≤◌, min, List, ◌++◌, length, IfOk, MatchOption, Ok};
ghost use Rattle.wire.specs.Varints.{followed, joined, varint_from, varint, varint_bytes};

use crate::faults::WireFault;
use crate::rest::Rest;

// A varint's number, and the place after its last byte.
#[derive(Clone, Copy, PartialEq, Eq, Debug)]
pub struct Varint {
    pub value: u64,
    pub next: usize,
}

// No varint has more bytes.
pub(crate) const MOST_BYTES: usize = 10;

// How many bytes at the front have another after them, counted up to ten.
fn count_followed(bytes: &[u8]) -> usize
    ensures { result ≡ min 10 (followed bytes.now) }
{
    bytes
        .iter()
        .take(MOST_BYTES)
        .take_while(|byte| **byte >= 128)
        .count()
}

// The number in the low seven bits of each byte, if it has at most 64 bits.
#[tactic(auto, using(crate::proofs::Groups::joining))]
fn join_groups(bytes: &[u8]) -> Option<u64>
    ensures { MatchOption result (2 ^ 64 ≤ joined bytes.now) (λ n. n ≡ joined bytes.now) }
{
    let mut value = 0u64;
    for byte in bytes.iter().rev() {
        value = value.checked_mul(128)?.checked_add(u64::from(*byte % 128))?;
    }
    Some(value)
}

impl Rest<'_> {
    // The varint at the place, by how many of its bytes have another after them.
    #[tactic(auto, using(crate::proofs::Groups::reading))]
    pub fn first_varint(&self) -> Result<Varint, WireFault>
        ensures { result ≡ varint_from self.now.message.now self.now.at }
    {
        let followed = count_followed(self.bytes()?);
        if followed == MOST_BYTES {
            return Err(WireFault::Malformed);
        }
        let groups = self.first_bytes(followed as u64 + 1)?;
        let value = join_groups(groups).ok_or(WireFault::Malformed)?;
        Ok(Varint {
            value,
            next: self.at + groups.len(),
        })
    }
}

// The varint at a place; every number of 64 bits that is written in the shortest form is read back.
#[tactic(auto, using(crate::proofs::Written::varint_back))]
pub fn read_varint(message: &[u8], at: usize) -> Result<Varint, WireFault>
    ensures reads_the_varint { result ≡ varint_from message.now at }
    ensures reads_back { (n : ℕ) (xs ys : List ℕ) → n < 2 ^ 64 → at ≡ length xs → message.now ≡ xs ++ (varint_bytes n ++ ys) → result ≡ Ok (varint n (at + length (varint_bytes n))) }
    ensures moves_on { IfOk result (λ v. at < v.next) }
    ensures stays_inside { IfOk result (λ v. v.next ≤ length message.now) }
{
    Rest { message, at }.first_varint()
}
