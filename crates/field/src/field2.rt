// The field of two elements: sum by exclusive or, product by and; one leaves a byte, zero clears it.
ghost use Rattle.field.specs.Models.{gf2};
ghost use Rattle.field.specs.Laws2.{laws2};

use super::Field;
use super::gf2::Gf2;

impl Field for Gf2 {
    ghost ops = { gf2 };

    ghost field = { laws2 };

    fn zero() -> Gf2 {
        Gf2 { bit: false }
    }

    fn one() -> Gf2 {
        Gf2 { bit: true }
    }

    // Stays: each field has its own sum; these two are alike in their letters only.
    fn add(self, other: Gf2) -> Gf2 {
        Gf2 {
            bit: self.bit ^ other.bit,
        }
    }

    fn sub(self, other: Gf2) -> Gf2 {
        self.add(other)
    }

    fn mul(self, other: Gf2) -> Gf2 {
        Gf2 {
            bit: self.bit & other.bit,
        }
    }

    fn is_zero(self) -> bool {
        !self.bit
    }

    fn inverse(self) -> Option<Gf2> {
        self.bit.then_some(self)
    }

    fn act(self, byte: u8) -> u8 {
        if self.bit { byte } else { 0 }
    }
}
