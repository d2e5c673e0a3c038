// Why a generator matrix is refused.
ghost use Rattle.std.specs.Prelude.{◌≡◌};
ghost use Rattle.codes.specs.Faults.{number_of};

// Each with the number that the refusal goes by outside the library.
#[derive(Clone, Copy, PartialEq, Eq, Debug)]
pub enum GeneratorFault {
    // the code has no matrix for so many data and parity units
    Limit = 2,
    // the buffer is too short for the matrix
    Sides = 10,
}

impl GeneratorFault {
    // Stays: a trait for the enums that number themselves would want a crate below them all, for this one line.
    pub fn number(self) -> u8
        ensures { result ≡ number_of self }
    {
        self as u8
    }
}
