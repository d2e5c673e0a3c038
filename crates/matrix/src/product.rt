// The product of two matrices.
ghost use Rattle.std.specs.Prelude.{◌≡◌, ◌<◌};
ghost use Rattle.algebra.specs.Matrices.{product};
ghost use Rattle.matrix.specs.Products.{Multiplied};
ghost use Rattle.matrix.specs.Shapes.{entry_of};

use super::fault::MatrixFault;
use super::grid::{Grid, Matrix};
use super::shape::Shape;
use field::Field;

// Stays: a and b are the two factors, and are never one thing.
// Stays: (c) tried the row of a as a slice: the closure that looks it up then has to write out all three facts below, and this function two of them still.
// A row of a times a column of b.
fn row_times_column<F: Field>(a: &Grid<'_, F>, b: &Grid<'_, F>, row: usize, col: usize) -> F
    requires alike { b.now.shape.rows ≡ a.now.shape.cols }
    requires row { row < a.now.shape.rows }
    requires col { col < b.now.shape.cols }
    ensures { result ≡ product F.Field.ops a.now.shape.cols (entry_of F.Field.ops.zero a.now) (entry_of F.Field.ops.zero b.now) row col }
{
    let mut total = F::zero();
    for (k, x) in a.row(row).iter().enumerate() {
        total = total.add(x.mul(b.entry(k, col)));
    }
    total
}

// a times b into out.
pub fn multiply<F: Field>(
    a: Matrix<'_, F>,
    b: Matrix<'_, F>,
    out: &mut [F],
) -> Result<(), MatrixFault>
    ensures { Multiplied F.Field.ops a.entry.sides b.entry.sides a.entry.entries.now b.entry.entries.now out.old out.new result }
{
    let first = Grid::try_from(a)?;
    let second = Grid::try_from(b)?;
    let of = Shape {
        rows: first.shape.rows,
        cols: second.shape.cols,
    };
    if b.sides.rows != a.sides.cols || out.len() < of.area() {
        return Err(MatrixFault::Sides);
    }
    of.fill(out, |r, c| row_times_column(&first, &second, r, c));
    Ok(())
}
