// Which cell, row and shard each byte of a striped block is in, how long the shards are, and what a row has of a range.
//
//   d = 3, p = 2, s = 4, a block of 30 bytes:
//
//            shard 0   shard 1   shard 2   shard 3   shard 4
//   row 0     0.. 3     4.. 7     8..11    parity    parity
//   row 1    12..15    16..19    20..23    parity    parity
//   row 2    24..27    28..29              parity    parity
//   bytes      12        10         8        12        12
#![tactic(auto)]

mod block;
mod places;
mod rows;
mod shards;

pub use block::StripedBlock;
pub use places::{
    Location, cell_for_offset, locate, offset_for_row, row_for_cell, row_size, shard_for_cell,
};
pub use rows::{RowRange, row_range};
