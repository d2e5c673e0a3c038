// The code `rs`: below the identity the inverse of the element row xor column.
ghost use Rattle.codes.specs.Generators.{Permitted, rs_generator, rs_part};
ghost use Rattle.algebra.proofs.Parts.{generator_upper};
ghost use Rattle.field.specs.Models;
ghost use Rattle.codes.specs.Rows.{rs_permitted};

use super::code::{Code, is_permitted};
use field::Field;
use field::gf256::Gf256;

#[derive(Clone, Copy, PartialEq, Eq, Debug)]
pub struct Rs;

impl Code for Rs {
    type F = Gf256;

    ghost permits = { Permitted };

    ghost generator = { rs_generator };

    ghost limits = { λ d p h. h };

    ghost systematic = { λ d r c h. generator_upper Models.gf256 d rs_part r c h };

    ghost rows = { rs_permitted };

    fn permits(data_units: usize, parity_units: usize) -> bool {
        is_permitted(data_units, parity_units)
    }

    fn entry(data_units: usize, row: usize, col: usize) -> Gf256 {
        if row < data_units {
            return if row == col {
                Gf256::one()
            } else {
                Gf256::zero()
            };
        }
        let difference = Gf256 {
            value: ((row ^ col) & 0xff) as u8,
        };
        difference.inverse().unwrap_or(Gf256::zero())
    }
}
