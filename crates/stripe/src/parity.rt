// The parity cells of a row.
ghost use Rattle.std.specs.Prelude.{◌≡◌, ℕ, ◌+◌, ◌*◌, ◌<◌, ◌≤◌, length, slice_index};
ghost use Rattle.algebra.specs.Matrices.{mixed};
ghost use Rattle.stripe.specs.Coded.{byte_at, units, RowRoom};
ghost use Rattle.stripe.specs.Encoded.{ParityIs, Encoded, RowFollows, OnlyParity};

use super::fault::StripeFault;
use super::there::row_bytes;
use codes::{Code, Rs, Xor};
use field::Field;
use field::gf2::Gf2;
use field::gf256::Gf256;
use matrix::{Matrix, Sides, act_on_cells};
use policy::{Codec, EcSchema};
use std::array;

// The cells of a row by number: the sources of every parity cell are the first of them.
fn cell_numbers() -> [usize; 16]
    ensures { (k : ℕ) → k < 16 → slice_index result k ≡ k }
{
    array::from_fn(|k| k)
}

// Makes the parity cells by a code, whose matrix goes into the slice lent for it.
fn encode_by<C: Code>(schema: EcSchema, row: &mut [u8], generator: &mut [C::F])
    requires code { C.Code.permits schema.data_units schema.parity_units }
    requires room { RowRoom schema row.old }
    requires space { 256 ≤ length generator.old }
    ensures { ParityIs schema.data_units (units schema) schema.cell_size (λ r v. mixed C.F.Field.ops schema.data_units (C.Code.generator schema.data_units r) v) (byte_at schema.cell_size row.old) (byte_at schema.cell_size row.new) }
{
    let d = schema.data_units;
    let n = schema.units();
    let s = schema.cell_size;
    let Ok(()) = C::matrix(d, schema.parity_units, generator) else {
        unreachable!()
    };
    let m = Matrix {
        entries: generator,
        sides: Sides { rows: n, cols: d },
    };
    let cells = cell_numbers();
    // Stays: r is the number of a parity cell, and nothing here is indexed by it.
    for r in d..n {
        let Ok(()) = act_on_cells(m, r, &cells, s, r, row) else {
            unreachable!()
        };
    }
}

// Makes the parity cells of the row whose data cells lie first in the buffer, and puts them after those.
pub fn encode(schema: EcSchema, row: &mut [u8]) -> Result<(), StripeFault>
    ensures parity_by_the_code { Encoded schema row.old row.new result }
    ensures row_follows_the_code { RowFollows schema row.new result }
    ensures no_other_parity { OnlyParity schema row.new result }
{
    // Stays: the working matrix is lent by the one who knows the field, as the project asks.
    match schema.codec {
        Codec::RsLegacy => Err(StripeFault::Codec),
        _ if row.len() < row_bytes(schema) => Err(StripeFault::Short),
        Codec::Rs => {
            encode_by::<Rs>(schema, row, &mut [Gf256 { value: 0 }; 256]);
            Ok(())
        }
        Codec::Xor => {
            encode_by::<Xor>(schema, row, &mut [Gf2 { bit: false }; 256]);
            Ok(())
        }
    }
}
