// The sides of a matrix, and why a call on matrices refuses.
ghost use Rattle.std.specs.Prelude.{◌≡◌};
ghost use Rattle.matrix.specs.Faults.{number_of};

#[derive(Clone, Copy, PartialEq, Eq, Debug)]
pub struct Sides {
    pub rows: usize,
    pub cols: usize,
}

// Each with the number that the refusal goes by outside the library.
#[derive(Clone, Copy, PartialEq, Eq, Debug)]
pub enum MatrixFault {
    // a side is 0, above 16, unlike another that it should equal, or does not fit its buffer
    Sides = 10,
    // the matrix has no inverse
    Singular = 11,
}

impl MatrixFault {
    // Stays: a trait for the enums that number themselves would want a crate below them all, for this one line.
    pub fn number(self) -> u8
        ensures { result ≡ number_of self }
    {
        self as u8
    }
}
