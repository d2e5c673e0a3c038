// The code `xor`: below the identity one row of ones.
ghost use Rattle.std.specs.Prelude.{◌≡◌};
ghost use Rattle.codes.specs.Generators.{Permitted, xor_generator, xor_part};
ghost use Rattle.algebra.proofs.Parts.{generator_upper};
ghost use Rattle.field.specs.Models;
ghost use Rattle.codes.specs.Rows.{xor_invertible};

use super::code::{Code, is_permitted};
use field::Field;
use field::gf2::Gf2;

#[derive(Clone, Copy, PartialEq, Eq, Debug)]
pub struct Xor;

impl Code for Xor {
    type F = Gf2;

    ghost permits = { λ d p. Permitted d p × (p ≡ 1) };

    ghost generator = { xor_generator };

    ghost limits = { λ d p h. h.0 };

    ghost systematic = { λ d r c h. generator_upper Models.gf2 d xor_part r c h };

    ghost rows = { λ d p h. xor_invertible d p h.1 };

    fn permits(data_units: usize, parity_units: usize) -> bool {
        parity_units == 1 && is_permitted(data_units, parity_units)
    }

    fn entry(data_units: usize, row: usize, col: usize) -> Gf2 {
        Gf2 {
            bit: row >= data_units || row == col,
        }
    }
}
