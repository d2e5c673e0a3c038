// The field of 256 elements: sum by xor, product by `multiply`, and the product as its action on a byte.
ghost use Rattle.field.specs.Models.{gf256};
ghost use Rattle.field.specs.Laws256.{laws256};

use super::Field;
use super::bytes::multiply;
use super::gf256::Gf256;

impl Field for Gf256 {
    ghost ops = { gf256 };

    ghost field = { laws256 };

    fn zero() -> Gf256 {
        Gf256 { value: 0 }
    }

    fn one() -> Gf256 {
        Gf256 { value: 1 }
    }

    // Stays: each field has its own sum; these two are alike in their letters only.
    fn add(self, other: Gf256) -> Gf256 {
        Gf256 {
            value: self.value ^ other.value,
        }
    }

    fn sub(self, other: Gf256) -> Gf256 {
        self.add(other)
    }

    fn mul(self, other: Gf256) -> Gf256 {
        Gf256 {
            value: multiply(self.value, other.value),
        }
    }

    fn is_zero(self) -> bool {
        self.value == 0
    }

    // The element to the 254th: its 255th power is one.
    fn inverse(self) -> Option<Gf256> {
        if self.value == 0 {
            return None;
        }
        let mut power = multiply(self.value, self.value);
        let mut found = 1u8;
        for _i in 0..7u8 {
            found = multiply(found, power);
            power = multiply(power, power);
        }
        Some(Gf256 { value: found })
    }

    fn act(self, byte: u8) -> u8 {
        multiply(self.value, byte)
    }
}
