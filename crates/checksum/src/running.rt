// A checksum of bytes that come in one slice after another.
ghost use Rattle.std.specs.Prelude.{◌≡◌, ℕ, List, [], ◌++◌};
ghost use Rattle.crcmath.specs.Divided.{Divides};
ghost use Rattle.checksum.specs.Sums.{polynomial, sum_of};
ghost use Rattle.checksum.specs.Running.{running_of, taken_in, finished};

use crate::kind::Checksum;

// All bits set.
const ONES: u32 = 0xFFFF_FFFF;

#[derive(Clone, Copy, PartialEq, Eq, Debug)]
pub struct Running {
    kind: Checksum,
    register: u32,
}

impl Running {
    // A checksum of no bytes yet.
    // Stays: the kind is kept with the register, and picks no step here.
    pub fn new(kind: Checksum) -> Running
        ensures { result ≡ running_of kind [] }
    {
        Running {
            kind,
            register: ONES,
        }
    }

    // Takes the next bytes.
    #[tactic(auto, using(crate::proofs::Taken::joins))]
    pub fn add(&mut self, bytes: &[u8])
        ensures takes_the_bytes_in { self.new ≡ taken_in self.old bytes.now }
        ensures joins_the_bytes { (k : Checksum) (xs : List ℕ) → self.old ≡ running_of k xs → self.new ≡ running_of k (xs ++ bytes.now) }
    {
        self.register = self.kind.feed(self.register, bytes);
    }

    // The checksum of all bytes so far: all bits of the register are turned.
    #[tactic(auto, using(crate::proofs::Turned::sums, crate::proofs::Turned::divides))]
    pub fn finish(&self) -> u32
        ensures turns_the_register { result ≡ finished self.now }
        ensures sums_the_bytes { (k : Checksum) (xs : List ℕ) → self.now ≡ running_of k xs → result ≡ sum_of k xs }
        ensures leaves_the_remainder { (k : Checksum) (xs : List ℕ) → self.now ≡ running_of k xs → Divides (polynomial k) xs result }
    {
        self.register ^ ONES
    }
}
