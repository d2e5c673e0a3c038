// The sides of a matrix that were found right, and the writing of one that lies row by row in a slice.
ghost use Rattle.std.specs.Prelude.{◌≡◌, ℕ, ◌+◌, ◌*◌, ◌<◌, ◌≤◌, ◌↔◌, length, drop, IsTrue};

use super::fault::{MatrixFault, Sides};
use field::Field;

// Whether a side may be one of a matrix.
fn is_side(n: usize) -> bool
    ensures { IsTrue result ↔ ((0 < n) × (n ≤ 16)) }
{
    (1..=16).contains(&n)
}

// The sides of a matrix that a caller lends, or of one that has an identity at its right.
#[derive(Clone, Copy, PartialEq, Eq, Debug)]
pub(crate) struct Shape {
    pub(crate) rows: usize,
    pub(crate) cols: usize,
    ghost some_rows: { 0 < rows },
    ghost some_cols: { 0 < cols },
    ghost few_rows: { rows ≤ 16 },
    ghost few_cols: { cols ≤ 32 },
}

// The sides, where each is one of a matrix.
impl TryFrom<Sides> for Shape {
    ghost use Rattle.matrix.specs.Shapes.{ShapeOf};

    type Error = MatrixFault;

    ghost try_from_gives = { ShapeOf };

    fn try_from(sides: Sides) -> Result<Shape, MatrixFault> {
        if !is_side(sides.rows) || !is_side(sides.cols) {
            return Err(MatrixFault::Sides);
        }
        Ok(Shape {
            rows: sides.rows,
            cols: sides.cols,
        })
    }
}

impl Shape {
    ghost use Rattle.matrix.specs.Grids.{grid, zeroed, EachEntry};

    // The same rows, with as many columns more.
    pub(crate) fn widen(self) -> Shape
        requires { self.cols ≤ 16 }
        ensures rows { result.rows ≡ self.rows }
        ensures cols { result.cols ≡ self.cols + self.cols }
    {
        Shape {
            rows: self.rows,
            cols: self.cols + self.cols,
        }
    }

    // How many entries a matrix has.
    pub(crate) fn area(self) -> usize
        ensures { result ≡ self.rows * self.cols }
    {
        self.rows * self.cols
    }

    // The place of an entry.
    pub(crate) fn place(self, row: usize, col: usize) -> usize
        requires row { row < self.rows }
        requires col { col < self.cols }
        ensures value { result ≡ row * self.cols + col }
        ensures bound { result < self.rows * self.cols }
    {
        row * self.cols + col
    }

    // Each entry becomes what `at` makes of its row and column.
    pub(crate) fn fill<F: Field, G: Fn(usize, usize) -> F>(self, out: &mut [F], at: G)
        requires room { self.rows * self.cols ≤ length out.old }
        requires callable { (r c : ℕ) → r < self.rows → c < self.cols → G.pre at r c }
        ensures entries { EachEntry self.rows self.cols (G.post at) (grid F.Field.ops.zero self.cols out.new) }
        ensures beyond { drop (self.rows * self.cols) out.new ≡ drop (self.rows * self.cols) out.old }
    {
        // Stays: row counts the parts of the slice; a division for each entry would find them at a higher cost.
        for row in 0..self.rows {
            let start = self.place(row, 0);
            for (col, x) in out[start..start + self.cols].iter_mut().enumerate() {
                *x = at(row, col);
            }
        }
    }

    // Zeros in each entry.
    pub(crate) fn clear<F: Field>(self, out: &mut [F])
        requires { self.rows * self.cols ≤ length out.old }
        ensures { out.new ≡ zeroed F.Field.ops.zero (self.rows * self.cols) out.old }
    {
        for x in out[..self.area()].iter_mut() {
            *x = F::zero();
        }
    }
}
