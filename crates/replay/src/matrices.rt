// The matrix of `rs`, and inverses of its rows.
ghost use Rattle.std.specs.Prelude.{◌+◌, ◌*◌, ◌<◌, ◌≤◌, length, IfOk};

use crate::answer::Answer;
use crate::fault::Fault;
use crate::question::Units;
use codes::{Code, GeneratorFault, Rs};
use field::gf256::Gf256;
use matrix::{Matrix, Sides, invert};
use std::alloc::Global;

const ZERO: Gf256 = Gf256 { value: 0 };

// The matrix of these units, with room after it.
fn matrix_of(units: Units) -> Result<[Gf256; 256], GeneratorFault>
    ensures some_data { IfOk result (λ m. 0 < units.data) }
    ensures in_full { IfOk result (λ m. (units.data + units.parity) * units.data ≤ length m) }
{
    // Stays: (a) the library writes a matrix into a buffer that it is lent.
    let mut matrix = [ZERO; 256];
    <Rs as Code>::matrix(units.data, units.parity, &mut matrix)?;
    Ok(matrix)
}

// The rows of the matrix that are named, one after another.
fn select(heap: Global, units: Units, rows: &[&str]) -> Result<Vec<Gf256>, Fault> {
    let matrix = matrix_of(units)?;
    let all = units.data + units.parity;
    let mut square = Vec::new(heap);
    for word in rows {
        let at: usize = word.parse()?;
        let row = matrix
            .chunks(units.data)
            .take(all)
            .nth(at)
            .ok_or(Fault::Form)?;
        square.extend_from_slice(row)?;
    }
    Ok(square)
}

impl Answer {
    pub(crate) fn write_matrix(&mut self, units: Units) -> Result<(), Fault> {
        let matrix = matrix_of(units)?;
        self.write_parts(matrix.chunks(units.data).take(units.data + units.parity))?;
        Ok(())
    }

    pub(crate) fn write_inverse(&mut self, units: Units, rows: &[&str]) -> Result<(), Fault> {
        let square = select(self.heap(), units, rows)?;
        let m = Matrix {
            entries: square.as_slice(),
            sides: Sides {
                rows: rows.len(),
                cols: units.data,
            },
        };
        // Stays: (a) the library works in buffers that it is lent.
        let mut work = [ZERO; 512];
        let mut inverse = [ZERO; 256];
        invert(m, &mut work, &mut inverse)?;
        self.write_parts(inverse.chunks(units.data).take(units.data))?;
        Ok(())
    }
}
