// What is left of a message from a place on.
ghost use Rattle.std.specs.Prelude.{◌≡◌};
ghost use Rattle.wire.specs.Readings.{seen};
ghost use Rattle.wire.specs.Fields.{bytes_from, bytes_at};

use crate::faults::WireFault;

// A message from a place on, which may lie past its end.
#[derive(Clone, Copy, PartialEq, Eq, Debug)]
pub(crate) struct Rest<'a> {
    pub message: &'a [u8],
    pub at: usize,
}

impl<'a> Rest<'a> {
    // All bytes up to the message's end.
    pub fn bytes(&self) -> Result<&'a [u8], WireFault>
        ensures { seen (λ bs. bs.now) result ≡ bytes_from self.now.message.now self.now.at }
    {
        self.message.get(self.at..).ok_or(WireFault::CutShort)
    }

    // So many bytes.
    pub fn first_bytes(&self, count: u64) -> Result<&'a [u8], WireFault>
        ensures { seen (λ bs. bs.now) result ≡ bytes_at self.now.message.now self.now.at count }
    {
        self.bytes()?
            .get(..count as usize)
            .ok_or(WireFault::CutShort)
    }

    // As many bytes as an array has.
    pub fn first_array<const N: usize>(&self) -> Result<[u8; N], WireFault>
        ensures { result ≡ bytes_at self.now.message.now self.now.at N }
    {
        self.bytes()?
            .first_chunk()
            .copied()
            .ok_or(WireFault::CutShort)
    }
}
