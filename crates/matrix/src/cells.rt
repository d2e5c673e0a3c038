// Cells of one size that lie one after another in a buffer.
ghost use Rattle.std.specs.Prelude.{◌≡◌, ◌+◌, ◌*◌, ◌/◌, ◌<◌, length};
ghost use Rattle.matrix.specs.Grids.{grid};

#[derive(Clone, Copy, PartialEq, Eq, Debug)]
pub(crate) struct Cells<'a> {
    pub(crate) bytes: &'a [u8],
    // of a cell
    pub(crate) size: usize,
    ghost some_bytes: { 0 < size },
}

impl Cells<'_> {
    // The place of byte i of a cell.
    pub(crate) fn place(&self, cell: usize, i: usize) -> usize
        requires cell { cell < length self.now.bytes.now / self.now.size }
        requires byte { i < self.now.size }
        ensures value { result ≡ cell * self.now.size + i }
        ensures bound { result < length self.now.bytes.now }
    {
        cell * self.size + i
    }

    pub(crate) fn byte(&self, cell: usize, i: usize) -> u8
        requires cell { cell < length self.now.bytes.now / self.now.size }
        requires byte { i < self.now.size }
        ensures { result ≡ grid 0 self.now.size self.now.bytes.now cell i }
    {
        self.bytes[self.place(cell, i)]
    }
}
