// A row of a matrix acting on cells of bytes that lie one after another in a buffer.
ghost use Rattle.std.specs.Prelude.{◌≡◌, ◌+◌, ◌*◌, ◌/◌, ◌<◌, ◌≤◌, ◌↔◌, length, IsTrue, slice_index, slice_index_or};
ghost use Rattle.algebra.specs.Matrices.{mixed};
ghost use Rattle.matrix.specs.Acted.{Acted, EachBelow};
ghost use Rattle.matrix.specs.Grids.{grid};

use super::cells::Cells;
use super::fault::MatrixFault;
use super::grid::{Grid, Matrix};
use field::Field;

// Whether each of the numbers is below the bound.
fn all_below(cells: &[usize], bound: usize) -> bool
    ensures { IsTrue result ↔ EachBelow (length cells.now) bound cells.now }
{
    cells.iter().all(|cell| *cell < bound)
}

// What a row of a matrix makes of byte i of the source cells.
fn mix_byte<F: Field>(row: &[F], sources: &[usize], of: &Cells<'_>, i: usize) -> u8
    requires byte { i < of.now.size }
    requires one_each { length row.now ≤ length sources.now }
    requires within { EachBelow (length row.now) (length of.now.bytes.now / of.now.size) sources.now }
    ensures { result ≡ mixed F.Field.ops (length row.now) (λ c. slice_index_or row.now c F.Field.ops.zero) (λ k. grid 0 of.now.size of.now.bytes.now (slice_index sources.now k) i) }
{
    let mut sum = 0u8;
    for (x, cell) in row.iter().zip(sources) {
        sum ^= x.act(of.byte(*cell, i));
    }
    sum
}

// The target cell becomes what a row of the matrix makes of the source cells, of which there is one for each column.
pub fn act_on_cells<F: Field>(
    m: Matrix<'_, F>,
    row: usize,
    sources: &[usize],
    cell_size: usize,
    target: usize,
    cells: &mut [u8],
) -> Result<(), MatrixFault>
    ensures { Acted F.Field.ops m.entry.entries.now m.entry.sides row sources.now cell_size target cells.old cells.new result }
{
    let grid = Grid::try_from(m)?;
    let cols = grid.shape.cols;
    if row >= grid.shape.rows || sources.len() < cols || cell_size == 0 {
        return Err(MatrixFault::Sides);
    }
    let count = cells.len() / cell_size;
    if target >= count || !all_below(&sources[..cols], count) {
        return Err(MatrixFault::Sides);
    }
    let entries = grid.row(row);
    // Stays: each byte of the target is made of bytes of the buffer that it is written into.
    for i in 0..cell_size {
        let of = Cells {
            bytes: cells,
            size: cell_size,
        };
        let at = of.place(target, i);
        let byte = mix_byte(entries, sources, &of, i);
        cells[at] = byte;
    }
    Ok(())
}
