// The kinds of checksum, and the checksum of bytes by each.
ghost use Rattle.std.specs.Prelude.{◌≡◌};
ghost use Rattle.crcmath.specs.Divided.{Divides};
ghost use Rattle.checksum.specs.Sums.{polynomial, sum_of};

use crate::running::Running;

#[derive(Clone, Copy, PartialEq, Eq, Debug)]
pub enum Checksum {
    Crc32,
    Crc32c,
}

impl Checksum {
    // The checksum of bytes by this kind.
    pub fn of(self, bytes: &[u8]) -> u32
        ensures sums_the_bytes { result ≡ sum_of self bytes.now }
        ensures leaves_the_remainder { Divides (polynomial self) bytes.now result }
    {
        let mut running = Running::new(self);
        running.add(bytes);
        running.finish()
    }
}
