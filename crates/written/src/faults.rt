// Why a frame is not written.
ghost use Rattle.std.specs.Prelude.{◌≡◌};
ghost use Rattle.written.specs.Faults.{number_of};

// Each with the number that the refusal goes by outside the library.
#[derive(Clone, Copy, PartialEq, Eq, Debug)]
pub enum FrameFault {
    // The buffer ends before the frame does.
    Short = 5,
    // The data are 2^31 bytes or more, or the payload length takes more than 32 bits.
    BadLength = 23,
    // Runs of no bytes have a checksum.
    EmptyRuns = 24,
    // The offset is negative, or one of a byte is.
    BadOffset = 26,
}

impl FrameFault {
    pub fn number(self) -> u8
        ensures { result ≡ number_of self }
    {
        self as u8
    }
}
