// Why a row is refused.
ghost use Rattle.std.specs.Prelude.{◌≡◌};
ghost use Rattle.stripe.specs.Faults.{number_of};

#[derive(Clone, Copy, PartialEq, Eq, Debug)]
pub enum StripeFault {
    // the codec makes no parity here
    Codec,
    // the row buffer is too short
    Short,
    // fewer cells than data units are there
    TooFew { cells: usize },
    // a data cell of the old codec is missing
    Legacy,
}

impl StripeFault {
    // Stays: an enum of which a case holds a value is not cast to a number.
    pub fn number(self) -> u8
        ensures { result ≡ number_of self }
    {
        match self {
            StripeFault::Codec => 1,
            StripeFault::Short => 5,
            StripeFault::TooFew { cells: _ } => 7,
            StripeFault::Legacy => 8,
        }
    }
}
