// A block put together again, row by row.
ghost use Rattle.rebuild.specs.Rebuilt.{answered};
ghost use Rattle.rebuild.specs.Shards.{RebuiltFrom, IsBlockDealt};

use crate::fault::RebuildFault;
use crate::held::HeldShards;
use cells::{StripedBlock, row_range};
use std::alloc::Global;

// The most bytes that a block may have.
const GREATEST_BLOCK: u64 = 1_099_511_627_776;

impl HeldShards<'_> {
    // Puts the block together again from the shards that are held whole: makes row after row, and adds what belongs to it.
    pub fn rebuild(self, heap: Global) -> Result<Vec<u8>, RebuildFault>
        ensures from_the_shards_held { RebuiltFrom self.entry (answered result) }
        ensures the_block_dealt { IsBlockDealt self.entry (answered result) }
    {
        let StripedBlock { schema, len } = self.block;
        if len > GREATEST_BLOCK {
            return Err(RebuildFault::Block);
        }
        let mut cells = vec![in heap; 0u8; schema.units() * schema.cell_size]?;
        let buffer = cells.as_mut_slice();
        let mut block = Vec::with_capacity(heap, len as usize)?;
        // Stays: (d) rows are counted here, and stand in no slice.
        for row in 0..self.block.row_count() {
            self.rebuild_row(row, buffer)?;
            let part = row_range(schema, row, 0, len);
            block.extend_from_slice(&buffer[..part.len])?;
        }
        Ok(block)
    }
}
