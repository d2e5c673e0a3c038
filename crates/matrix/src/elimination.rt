// Elimination on a matrix with the identity at its right.
ghost use Rattle.std.specs.Prelude.{◌≡◌, ◌+◌, ◌*◌, ◌<◌, ◌≤◌, length, ◌≢◌};
ghost use Rattle.algebra.specs.Elimination.{Step, Eliminated};
ghost use Rattle.matrix.specs.Grids.{grid, Beyond};

use super::grid::Grid;
use super::rows::{clear_column, pivot, scale_row, swap_rows};
use super::shape::Shape;
use field::Field;

// Stays: each step takes the lent slice beside its shape; a struct that held both would have each step ensure that it still holds this slice and this shape.
// Row p comes up to k, is divided by its entry in column k, and clears that column in the other rows.
fn reduce<F: Field>(m: &mut [F], shape: Shape, k: usize, p: usize)
    requires room { shape.rows * shape.cols ≤ length m.old }
    requires row { p < shape.rows }
    requires up { k ≤ p }
    requires col { k < shape.cols }
    requires pivot { grid F.Field.ops.zero shape.cols m.old p k ≢ F.Field.ops.zero }
    ensures step { Step F.Field.ops shape.rows shape.cols k p (grid F.Field.ops.zero shape.cols m.old) (grid F.Field.ops.zero shape.cols m.new) }
    ensures beyond { Beyond shape.rows shape.cols (grid F.Field.ops.zero shape.cols m.old) (grid F.Field.ops.zero shape.cols m.new) }
{
    let Some(by) = m[shape.place(p, k)].inverse() else {
        unreachable!()
    };
    if k < p {
        swap_rows(m, shape, k, p);
    }
    scale_row(m, shape, k, by);
    clear_column(m, shape, k);
}

// Stays: whether each column had a pivot is a yes or no; the caller refuses, once it has cleared its buffers.
// Brings the left half to the identity: whether each column had a pivot.
pub(crate) fn eliminate<F: Field>(m: &mut [F], wide: Shape) -> bool
    requires room { wide.rows * wide.cols ≤ length m.old }
    requires twice { wide.cols ≡ wide.rows + wide.rows }
    ensures done { Eliminated F.Field.ops wide.rows (grid F.Field.ops.zero wide.cols m.old) (grid F.Field.ops.zero wide.cols m.new) result }
    ensures beyond { Beyond wide.rows wide.cols (grid F.Field.ops.zero wide.cols m.old) (grid F.Field.ops.zero wide.cols m.new) }
{
    // Stays: k numbers a column and the row that its pivot comes to, and each turn changes the whole matrix.
    for k in 0..wide.rows {
        let grid = Grid {
            entries: m,
            shape: wide,
        };
        let Some(p) = pivot(&grid, k) else {
            return false;
        };
        reduce(m, wide, k, p);
    }
    true
}
