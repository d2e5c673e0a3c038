// Matrices in slices: as a caller lends them, and as they were found to fit.
ghost use Rattle.std.specs.Prelude.{◌≡◌, ◌*◌, ◌≤◌, length};

use super::fault::{MatrixFault, Sides};
use super::shape::Shape;
use field::Field;

// A matrix that lies row by row in a slice. Nothing of it is checked: each call refuses sides that its entries do not fill.
#[derive(Clone, Copy, PartialEq, Eq, Debug)]
pub struct Matrix<'a, F> {
    pub entries: &'a [F],
    pub sides: Sides,
}

// Stays: (c) tried Clone and Copy too: a struct with a type parameter and a ghost field derives neither.
// A matrix that was found to have an entry for each row and column.
#[derive(PartialEq, Eq, Debug, Drop)]
pub(crate) struct Grid<'a, F> {
    pub(crate) entries: &'a [F],
    pub(crate) shape: Shape,
    ghost room: { shape.rows * shape.cols ≤ length entries.now },
}

// The matrix, where its sides are right and its entries fill them.
impl<'a, F: Field> TryFrom<Matrix<'a, F>> for Grid<'a, F> {
    ghost use Rattle.matrix.specs.Shapes.{GridOf};

    type Error = MatrixFault;

    ghost try_from_gives = { GridOf };

    fn try_from(m: Matrix<'a, F>) -> Result<Grid<'a, F>, MatrixFault> {
        let shape = Shape::try_from(m.sides)?;
        if m.entries.len() < shape.area() {
            return Err(MatrixFault::Sides);
        }
        Ok(Grid {
            entries: m.entries,
            shape,
        })
    }
}

impl<'a, F: Field> Grid<'a, F> {
    ghost use Rattle.std.specs.Prelude.{ℕ, ◌<◌, slice_index_or};
    ghost use Rattle.matrix.specs.Shapes.{entry_of};

    // Stays: a row and a column are how an entry is named.
    pub(crate) fn entry(&self, row: usize, col: usize) -> F
        requires row { row < self.now.shape.rows }
        requires col { col < self.now.shape.cols }
        ensures { result ≡ entry_of F.Field.ops.zero self.now row col }
    {
        let i = self.shape.place(row, col);
        self.entries[i]
    }

    pub(crate) fn row(&self, row: usize) -> &'a [F]
        requires { row < self.now.shape.rows }
        ensures len { length result.now ≡ self.now.shape.cols }
        ensures entries { (c : ℕ) → c < self.now.shape.cols → slice_index_or result.now c F.Field.ops.zero ≡ entry_of F.Field.ops.zero self.now row c }
    {
        let start = self.shape.place(row, 0);
        &self.entries[start..start + self.shape.cols]
    }
}
