// How long shards and their cells are.
ghost use Rattle.std.specs.Prelude.{◌≡◌, ℕ, ◌+◌, ◌-◌, ◌*◌, ◌^◌, ◌<◌, min, List, length};
ghost use Rattle.dealing.specs.Places.{like_shard_of, data_len_of, cell_len_of, row_place};
ghost use Rattle.dealing.specs.Laws.{CellOfShard, FromShard};
ghost use Rattle.cells.specs.Striped.{dealt_shard_len, dealt_own_len, dealt_shard, dealt_own};

use crate::block::StripedBlock;
use crate::places::row_size;
use policy::EcSchema;

// A parity shard is as long as shard 0, cell by cell.
fn like_shard(schema: EcSchema, index: usize) -> usize
    ensures value { result ≡ like_shard_of schema.data_units index }
    ensures of_data { result < schema.data_units }
{
    if index < schema.data_units { index } else { 0 }
}

impl StripedBlock {
    // How many bytes a data shard has: a cell for each whole row, and its part of the row that is begun.
    fn data_len(self, index: usize) -> u64
        requires { index < self.schema.data_units }
        ensures { result ≡ data_len_of self.schema.data_units self.schema.cell_size self.len index }
    {
        let row = row_size(self.schema) as u64;
        let cell = self.schema.cell_size as u64;
        let begun = (self.len % row).saturating_sub(index as u64 * cell);
        self.len / row * cell + begun.min(cell)
    }

    // How many bytes a shard of the block has; there is no shard past the last parity shard.
    pub fn max_offset(self, index: usize) -> u64
        ensures value { result ≡ dealt_shard_len self index }
        ensures length_of_shard { let e = self.schema in (block : List ℕ) → length block ≡ self.len
            → index < e.data_units + e.parity_units → result ≡ length (dealt_shard self block index) }
        ensures bytes_of_block { let e = self.schema in (block : List ℕ) → length block ≡ self.len
            → index < e.data_units → (o : ℕ) → o < result → FromShard e.data_units e.cell_size block index o }
    {
        if index < self.schema.units() {
            self.data_len(like_shard(self.schema, index))
        } else {
            0
        }
    }

    // How many bytes a data cell has of the block.
    fn cell_len(self, cell: u128) -> usize
        requires { cell < 2 ^ 68 }
        ensures { result ≡ cell_len_of self.schema.cell_size self.len cell }
    {
        let size = self.schema.cell_size as u128;
        let left = (self.len as u128).saturating_sub(cell * size);
        left.min(size) as usize
    }

    // How many bytes of its own the cell of a shard has in a row: none past the shard's end.
    pub fn own_len(self, index: usize, row: u64) -> usize
        ensures value { result ≡ dealt_own_len self index row }
        ensures length_of_own { let e = self.schema in (block : List ℕ) → length block ≡ self.len
            → index < e.data_units + e.parity_units → result ≡ length (dealt_own self block index row) }
        ensures cell_of_shard { let e = self.schema in (block : List ℕ) → length block ≡ self.len
            → index < e.data_units → CellOfShard e.data_units e.cell_size block index row }
        ensures of_its_shard { let s = self.schema.cell_size in
            result ≡ min s (dealt_shard_len self index - row_place s row) }
    {
        if index < self.schema.units() {
            let first = row as u128 * self.schema.data_units as u128;
            self.cell_len(first + like_shard(self.schema, index) as u128)
        } else {
            0
        }
    }
}
