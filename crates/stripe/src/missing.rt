// Missing data cells of a row, made again from the lowest cells that are there.
ghost use Rattle.std.specs.Prelude.{◌≡◌, ℕ, ◌+◌, ◌*◌, ◌<◌, ◌≤◌, length, take, slice_index};
ghost use Rattle.algebra.specs.Matrices.{mixed};
ghost use Rattle.matrix.specs.Grids.{grid};
ghost use Rattle.policy.specs.declared.codec.Codec.TheVariants.{Rs as RsCodec, Xor as XorCodec};
ghost use Rattle.stripe.specs.Coded.{byte_at, coded, units, RowRoom};
ghost use Rattle.stripe.specs.Recovered.{Filled, MadeAgain, Recovered, DealtCells, RowDetermined};
ghost use Rattle.stripe.specs.There.{flag, there_below};

use super::fault::StripeFault;
use super::select::select_rows;
use super::there::{count_missing, lowest, row_bytes};
use arrayvec::ArrayVec;
use codes::{Code, Rs, Xor};
use field::Field;
use field::gf2::Gf2;
use field::gf256::Gf256;
use matrix::{Matrix, Sides, act_on_cells, invert};
use policy::{Codec, EcSchema};

// The matrices by which a row is made again, with room for 16 cells.
#[derive(Drop)]
struct Workspace<F> {
    generator: [F; 256],
    square: [F; 256],
    work: [F; 512],
    inverse: [F; 256],
}

impl<F: Copy> Workspace<F> {
    fn of(zero: F) -> Self {
        Workspace {
            generator: [zero; 256],
            square: [zero; 256],
            work: [zero; 512],
            inverse: [zero; 256],
        }
    }
}

// Which cells of a row are there, and the lowest of them, of which there are as many as data cells.
#[derive(Clone, Copy, PartialEq, Eq, Debug)]
struct Chosen<'a> {
    schema: EcSchema,
    there: &'a [bool; 16],
    cells: &'a [usize],
    ghost lowest: { cells.now ≡ take schema.data_units (there_below (flag there.now) (units schema)) },
    ghost enough: { length cells.now ≡ schema.data_units },
}

impl Chosen<'_> {
    // Each missing data cell becomes what its row of the inverse makes of the chosen cells.
    // Stays: the row is lent from step to step, and `Chosen`, which is copied, can hold no loan to write.
    fn fill_missing<F: Field>(self, inverse: &[F], row: &mut [u8])
        requires room { RowRoom self.schema row.old }
        requires matrix { self.schema.data_units * self.schema.data_units ≤ length inverse.now }
        ensures { let s = self.entry.schema in Filled s.data_units s.cell_size (flag self.entry.there.now) (λ c v. mixed F.Field.ops s.data_units (grid F.Field.ops.zero s.data_units inverse.now c) (λ k. v (slice_index self.entry.cells.now k))) (byte_at s.cell_size row.old) (byte_at s.cell_size row.new) }
    {
        let Chosen {
            schema,
            there,
            cells,
        } = self;
        let d = schema.data_units;
        let s = schema.cell_size;
        let m = Matrix {
            entries: inverse,
            sides: Sides { rows: d, cols: d },
        };
        for (c, &here) in there[..d].iter().enumerate() {
            if !here {
                let Ok(()) = act_on_cells(m, c, cells, s, c, row) else {
                    unreachable!()
                };
            }
        }
    }

    // Makes the missing data cells again by a code; its matrices go into the space lent for them.
    fn recover_by<C: Code>(self, row: &mut [u8], space: &mut Workspace<C::F>)
        requires code { C.Code.permits self.schema.data_units self.schema.parity_units }
        requires room { RowRoom self.schema row.old }
        ensures { let s = self.entry.schema in MadeAgain s.data_units (units s) s.cell_size (λ r v. mixed C.F.Field.ops s.data_units (C.Code.generator s.data_units r) v) (flag self.entry.there.now) (byte_at s.cell_size row.old) (byte_at s.cell_size row.new) }
    {
        let d = self.schema.data_units;
        let Ok(()) = C::matrix(d, self.schema.parity_units, &mut space.generator) else {
            unreachable!()
        };
        select_rows(&space.generator, self.cells, &mut space.square);
        let m = Matrix {
            entries: &space.square,
            sides: Sides { rows: d, cols: d },
        };
        let Ok(()) = invert(m, &mut space.work, &mut space.inverse) else {
            unreachable!()
        };
        self.fill_missing(&space.inverse, row);
    }

    // The same by the codec of the scheme.
    // Stays: the working matrices are lent by the one who knows the field, as the project asks. They are made in a function
    // for each codec, so that a row pays for those of its field alone, and for none where no cell is missing.
    fn recover_rs(self, row: &mut [u8])
        requires codec { self.schema.codec ≡ RsCodec }
        requires room { RowRoom self.schema row.old }
        ensures { let s = self.entry.schema in MadeAgain s.data_units (units s) s.cell_size (coded RsCodec s.data_units) (flag self.entry.there.now) (byte_at s.cell_size row.old) (byte_at s.cell_size row.new) }
    {
        self.recover_by::<Rs>(row, &mut Workspace::of(Gf256 { value: 0 }));
    }

    // Stays: as `recover_rs` for the other field.
    fn recover_xor(self, row: &mut [u8])
        requires codec { self.schema.codec ≡ XorCodec }
        requires room { RowRoom self.schema row.old }
        ensures { let s = self.entry.schema in MadeAgain s.data_units (units s) s.cell_size (coded XorCodec s.data_units) (flag self.entry.there.now) (byte_at s.cell_size row.old) (byte_at s.cell_size row.new) }
    {
        self.recover_by::<Xor>(row, &mut Workspace::of(Gf2 { bit: false }));
    }
}

// Makes the data cells of a row again that are not there, from the lowest that are, and tells how many they were.
pub fn recover(schema: EcSchema, there: &[bool; 16], row: &mut [u8]) -> Result<usize, StripeFault>
    ensures from_the_lowest_there { Recovered schema there.now row.old row.new result }
    ensures the_cells_dealt { DealtCells schema there.now row.old row.new result }
    ensures cells_determine_the_row { RowDetermined schema result }
{
    if row.len() < row_bytes(schema) {
        return Err(StripeFault::Short);
    }
    let mut found = ArrayVec::new();
    lowest(&there[..schema.units()], &mut found);
    let cells = found.len();
    if cells < schema.data_units {
        return Err(StripeFault::TooFew { cells });
    }
    let made = count_missing(&there[..schema.data_units]);
    if made == 0 {
        return Ok(0);
    }
    let chosen = Chosen {
        schema,
        there,
        cells: &found[..schema.data_units],
    };
    match schema.codec {
        Codec::RsLegacy => Err(StripeFault::Legacy),
        Codec::Rs => {
            chosen.recover_rs(row);
            Ok(made)
        }
        Codec::Xor => {
            chosen.recover_xor(row);
            Ok(made)
        }
    }
}
