// How many rows a block has, and what a row has of a range.
ghost use Rattle.std.specs.Prelude.{◌≡◌, ℕ, ◌+◌, ◌^◌, ◌<◌, ◌≤◌, List, length};
ghost use Rattle.dealing.specs.Places.{row_bytes};
ghost use Rattle.dealing.specs.Laws.{Least, RowsAreBlock, PartOfBlock, PartsAreRange};
ghost use Rattle.cells.specs.Found.{range_of};
ghost use Rattle.cells.specs.Striped.{dealt_rows};

use crate::block::StripedBlock;
use crate::places::row_size;
use policy::EcSchema;

// Bytes of a row's data cells, counted from the row's first.
// Stays: (d) a row with nothing of the range has length 0, and copying no bytes needs no case; an `Option` adds one, a `Range` makes each promise say `end - start`.
#[derive(Clone, Copy, PartialEq, Eq, Debug)]
pub struct RowRange {
    pub start: usize,
    pub len: usize,
}

impl StripedBlock {
    // How many rows hold the block; the last may be begun only.
    pub fn row_count(self) -> u64
        ensures value { result ≡ dealt_rows self }
        ensures least { let e = self.schema in Least e.data_units e.cell_size self.len result }
        ensures rows_are_block { let e = self.schema in (block : List ℕ) → length block ≡ self.len
            → RowsAreBlock e.data_units e.cell_size block result }
    {
        self.len.div_ceil(row_size(self.schema) as u64)
    }
}

// What the range of `len` bytes from `offset` has in the row, of `size` bytes a row.
fn part_of_row(size: usize, row: u64, offset: u64, len: u64) -> RowRange
    requires { size < 2 ^ 24 }
    ensures { result ≡ range_of size row offset len }
{
    let first = row as u128 * size as u128;
    let from = (offset as u128).max(first);
    let to = (offset as u128 + len as u128).min(first + size as u128);
    if to <= from {
        return RowRange { start: 0, len: 0 };
    }
    RowRange {
        start: (from - first) as usize,
        len: (to - from) as usize,
    }
}

// Which bytes of the row's data cells belong to the range of `len` bytes from `offset`; start and length 0 where none does.
pub fn row_range(schema: EcSchema, row: u64, offset: u64, len: u64) -> RowRange
    ensures value { result ≡ range_of (row_bytes schema.data_units schema.cell_size) row offset len }
    ensures in_the_row { result.start + result.len ≤ row_bytes schema.data_units schema.cell_size }
    ensures part_of_block { (block : List ℕ) → offset + len ≤ length block
        → PartOfBlock schema.data_units schema.cell_size block row offset result.start result.len }
    ensures parts_are_range { (block : List ℕ) → offset + len ≤ length block
        → PartsAreRange schema.data_units schema.cell_size block offset len }
{
    part_of_row(row_size(schema), row, offset, len)
}
