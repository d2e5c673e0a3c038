// Puts a block together again from those of its shards that are held.
//
//   d = 3, p = 2, s = 4, a block of 30 bytes, shards 1 and 2 lost:
//
//            shard 0   shard 1   shard 2   shard 3   shard 4     cells there
//   row 0     0.. 3                        parity    parity      3: enough
//   row 1    12..15                        parity    parity      3: enough
//   row 2    24..27               zeros    parity    parity      4: a cell with no bytes of its own is there
#![tactic(auto)]

mod block;
mod fault;
mod held;
mod row;

pub use fault::RebuildFault;
pub use held::HeldShards;
