// One row of a block, made again in a buffer.
ghost use Rattle.std.specs.Prelude.{◌≡◌, ℕ, ◌<◌, ◌≤◌, length, slice_index};
ghost use Rattle.stripe.specs.Coded.{byte_at, units, RowRoom};
ghost use Rattle.rebuild.specs.Shards.{bytes_held, RowRebuiltFrom};

use crate::fault::RebuildFault;
use crate::held::HeldShards;
use stripe::recover;

// Lays bytes into the cell, and zeros after them.
fn lay(cell: &mut [u8], bytes: &[u8])
    requires { length bytes.now ≤ length cell.old }
    ensures { (j : ℕ) → slice_index cell.new j ≡ slice_index bytes.now j }
{
    cell.fill(0);
    cell[..bytes.len()].copy_from_slice(bytes);
}

impl<'a> HeldShards<'a> {
    // The bytes of its own that a cell has in a shard held whole; none where the shard is not.
    fn own_bytes(self, row: u64, index: usize) -> &'a [u8]
        ensures within { length result.now ≤ self.entry.block.schema.cell_size }
        ensures bytes { (j : ℕ) → j < self.entry.block.schema.cell_size
            → slice_index result.now j ≡ bytes_held self.entry row index j }
    {
        let own = self.block.own_len(index, row);
        match self.whole_shard(index) {
            // a cell with bytes of its own begins within its shard
            Some(bytes) if own > 0 => {
                let from = row as usize * self.block.schema.cell_size;
                &bytes[from..from + own]
            }
            // Stays: a cell with no bytes of its own has no bytes; nothing is refused here.
            _ => &[],
        }
    }

    // Lays the cells of the row into the buffer: zeros for those that are not there.
    fn lay_row(self, row: u64, buffer: &mut [u8])
        requires { RowRoom self.block.schema buffer.old }
        ensures { let e = self.entry.block.schema in (i j : ℕ) → i < units e → j < e.cell_size
            → byte_at e.cell_size buffer.new i j ≡ bytes_held self.entry row i j }
    {
        let size = self.block.schema.cell_size;
        // Stays: (c) tried `chunks_exact_mut(size).enumerate()`: after it a proof knows the buffer's length and none of its bytes.
        for i in 0..self.block.schema.units() {
            let from = i * size;
            lay(&mut buffer[from..from + size], self.own_bytes(row, i));
        }
    }

    // Makes the row again in the buffer, its data cells first.
    pub(crate) fn rebuild_row(self, row: u64, buffer: &mut [u8]) -> Result<(), RebuildFault>
        requires { RowRoom self.block.schema buffer.old }
        ensures { RowRebuiltFrom self.entry row (byte_at self.entry.block.schema.cell_size buffer.new) result }
    {
        let there = self.cells_there(row);
        self.lay_row(row, buffer);
        let made = recover(self.block.schema, &there, buffer);
        made.map_err(|fault| RebuildFault::of_row(row, fault))?;
        Ok(())
    }
}
