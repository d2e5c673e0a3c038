// The inverse of a matrix, by elimination.
ghost use Rattle.std.specs.Prelude.{◌≡◌, ◌+◌, ◌<◌, length};
ghost use Rattle.algebra.specs.Elimination.{widened};
ghost use Rattle.matrix.specs.Inverted.{Room, Inverted};
ghost use Rattle.matrix.specs.Shapes.{sides_of, entry_of};

use super::elimination::eliminate;
use super::fault::MatrixFault;
use super::grid::{Grid, Matrix};
use field::Field;

// An entry of a square matrix with the identity at its right.
fn wide_entry<F: Field>(m: &Grid<'_, F>, row: usize, col: usize) -> F
    requires square { m.now.shape.cols ≡ m.now.shape.rows }
    requires row { row < m.now.shape.rows }
    requires col { col < m.now.shape.rows + m.now.shape.rows }
    ensures { result ≡ widened F.Field.ops m.now.shape.rows (entry_of F.Field.ops.zero m.now) row col }
{
    let n = m.shape.cols;
    if col < n {
        m.entry(row, col)
    } else if row == col - n {
        F::one()
    } else {
        F::zero()
    }
}

// The inverse of a square matrix into out, where the buffers have room.
fn invert_square<F: Field>(
    m: &Grid<'_, F>,
    work: &mut [F],
    out: &mut [F],
) -> Result<(), MatrixFault>
    requires { Room (sides_of m.now.shape) (length m.now.entries.now) (length work.old) (length out.old) }
    ensures { Inverted F.Field.ops (sides_of m.now.shape) m.now.entries.now work.old out.old work.new out.new result }
{
    let square = m.shape;
    let wide = square.widen();
    wide.fill(work, |r, c| wide_entry(m, r, c));
    if !eliminate(work, wide) {
        wide.clear(work);
        square.clear(out);
        return Err(MatrixFault::Singular);
    }
    let reduced = Grid {
        entries: work,
        shape: wide,
    };
    square.fill(out, |r, c| reduced.entry(r, square.cols + c));
    wide.clear(work);
    Ok(())
}

// The inverse of m into out. The elimination takes place in work, which needs twice as many entries as m and is left as zeros.
pub fn invert<F: Field>(m: Matrix<'_, F>, work: &mut [F], out: &mut [F]) -> Result<(), MatrixFault>
    ensures { Inverted F.Field.ops m.entry.sides m.entry.entries.now work.old out.old work.new out.new result }
{
    let square = Grid::try_from(m)?;
    let shape = square.shape;
    if shape.cols != shape.rows {
        return Err(MatrixFault::Sides);
    }
    if work.len() < shape.widen().area() || out.len() < shape.area() {
        return Err(MatrixFault::Sides);
    }
    invert_square(&square, work, out)
}
