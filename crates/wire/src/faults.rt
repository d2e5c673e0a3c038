// Why a message is refused.
ghost use Rattle.std.specs.Prelude.{◌≡◌};
ghost use Rattle.wire.specs.Faults.{number_of};

// Each with the number that the refusal goes by outside the library.
#[derive(Clone, Copy, PartialEq, Eq, Debug)]
pub enum WireFault {
    // The message ends inside a field.
    CutShort = 20,
    // The bytes are no field, whatever follows.
    Malformed = 21,
}

impl WireFault {
    // Stays: a trait for the enums that number themselves would want a crate below them all, for this one line.
    pub fn number(self) -> u8
        ensures { result ≡ number_of self }
    {
        self as u8
    }
}
