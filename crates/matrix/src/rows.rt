// Steps of elimination on whole rows, and the search for a pivot.
ghost use Rattle.std.specs.Prelude.{◌≡◌, ◌*◌, ◌<◌, ◌≤◌, length, ◌≢◌};
ghost use Rattle.matrix.specs.Grids.{grid, RowIs};
ghost use Rattle.matrix.specs.Rows.{Exchanged, ClearTo, Pivot};
ghost use Rattle.matrix.specs.Shapes.{entry_of};

use super::grid::Grid;
use super::shape::Shape;
use field::Field;

// Stays: each step takes the lent slice beside its shape; a struct that held both would have each step ensure that it still holds this slice and this shape, two facts for the one on its room.
// Row a and a row b below it change places.
pub(crate) fn swap_rows<F: Field>(m: &mut [F], shape: Shape, a: usize, b: usize)
    requires room { shape.rows * shape.cols ≤ length m.old }
    requires below { a < b }
    requires within { b < shape.rows }
    ensures { Exchanged shape.cols a b (grid F.Field.ops.zero shape.cols m.old) (grid F.Field.ops.zero shape.cols m.new) }
{
    let start = shape.place(a, 0);
    let (upper, lower) = m.split_at_mut(shape.place(b, 0));
    upper[start..start + shape.cols].swap_with_slice(&mut lower[..shape.cols]);
}

// Each entry of a row times an element.
pub(crate) fn scale_row<F: Field>(m: &mut [F], shape: Shape, row: usize, by: F)
    requires room { shape.rows * shape.cols ≤ length m.old }
    requires within { row < shape.rows }
    ensures { RowIs shape.cols row (λ c. F.Field.ops.times by (grid F.Field.ops.zero shape.cols m.old row c)) (grid F.Field.ops.zero shape.cols m.old) (grid F.Field.ops.zero shape.cols m.new) }
{
    let start = shape.place(row, 0);
    for x in m[start..start + shape.cols].iter_mut() {
        *x = by.mul(*x);
    }
}

// Takes row k, which has a one in column k, from another row, times the entry there in column k.
fn clear_entry<F: Field>(m: &mut [F], shape: Shape, row: usize, k: usize)
    requires room { shape.rows * shape.cols ≤ length m.old }
    requires within { row < shape.rows }
    requires lead { k < shape.rows }
    requires col { k < shape.cols }
    requires apart { k ≢ row }
    ensures { RowIs shape.cols row (λ c. F.Field.ops.minus (grid F.Field.ops.zero shape.cols m.old row c) (F.Field.ops.times (grid F.Field.ops.zero shape.cols m.old row k) (grid F.Field.ops.zero shape.cols m.old k c))) (grid F.Field.ops.zero shape.cols m.old) (grid F.Field.ops.zero shape.cols m.new) }
{
    let by = m[shape.place(row, k)];
    // Stays: (c) tried a copy of the lead row in an array: a part of it asks that F fits in memory, which no bound here gives; parts cut from the one slice take a case for either order of the rows.
    for c in 0..shape.cols {
        let at = shape.place(row, c);
        let lead = shape.place(k, c);
        m[at] = m[at].sub(by.mul(m[lead]));
    }
}

// Clears column k in each row but row k, which has a one there.
pub(crate) fn clear_column<F: Field>(m: &mut [F], shape: Shape, k: usize)
    requires room { shape.rows * shape.cols ≤ length m.old }
    requires row { k < shape.rows }
    requires col { k < shape.cols }
    ensures { ClearTo F.Field.ops shape.cols shape.rows k (grid F.Field.ops.zero shape.cols m.old) (grid F.Field.ops.zero shape.cols m.new) }
{
    // Stays: r numbers a row of the slice that row k is read from while r is written.
    for r in 0..shape.rows {
        if r != k {
            clear_entry(m, shape, r, k);
        }
    }
}

// The first row from k on whose entry in column k can be a pivot.
pub(crate) fn pivot<F: Field>(m: &Grid<'_, F>, k: usize) -> Option<usize>
    requires { k < m.now.shape.cols }
    ensures { Pivot F.Field.ops.zero m.now.shape.rows k (entry_of F.Field.ops.zero m.now) result }
{
    let mut r = k;
    // Stays: the project asks for a labelled loop here that is left with the row found.
    let found = 'rows: loop {
        if r >= m.shape.rows {
            break 'rows None;
        }
        if !m.entry(r, k).is_zero() {
            break 'rows Some(r);
        }
        r += 1;
    };
    found
}
