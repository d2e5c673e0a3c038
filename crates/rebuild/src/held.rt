// The shards that are held of a block, and the cells of a row that are there.
ghost use Rattle.std.specs.Prelude.{◌≡◌, ℕ, length, is_some};
ghost use Rattle.std.specs.Option.{option_map};
ghost use Rattle.stripe.specs.There.{flag};
ghost use Rattle.rebuild.specs.Shards.{whole_held, there_held};

use cells::StripedBlock;

// A block and those of its shards that are held, by their index; one past the slice's end is not held.
#[derive(Clone, Copy, PartialEq, Eq, Debug)]
pub struct HeldShards<'a> {
    pub block: StripedBlock,
    pub shards: &'a [Option<&'a [u8]>],
}

impl<'a> HeldShards<'a> {
    // A shard that is held whole.
    pub(crate) fn whole_shard(self, index: usize) -> Option<&'a [u8]>
        ensures { option_map (λ x. x.now) result ≡ whole_held self.entry index }
    {
        let given = self.shards.get(index).copied().flatten();
        given.filter(|bytes| bytes.len() as u64 == self.block.max_offset(index))
    }

    // Whether a shard is held whole: it is given and has just the length that a shard of that index has.
    pub fn is_whole(self, index: usize) -> bool
        ensures { result ≡ is_some (whole_held self.entry index) }
    {
        self.whole_shard(index).is_some()
    }

    // Whether the cell of a shard is there: the shard is held whole, or the cell is zeros alone.
    fn is_there(self, row: u64, index: usize) -> bool
        ensures { result ≡ there_held self.entry row index }
    {
        index < self.block.schema.units()
            && (self.is_whole(index) || self.block.own_len(index, row) == 0)
    }

    // Which cells of a row are there: those of shards held whole, and those with no bytes of their own.
    pub fn cells_there(self, row: u64) -> [bool; 16]
        ensures sixteen { length result ≡ 16 }
        ensures each_flag { (i : ℕ) → flag result i ≡ there_held self.entry row i }
    {
        // Stays: `array::from_fn` asks sixteen times, and a row may have two cells.
        let mut there = [false; 16];
        for (index, here) in there[..self.block.schema.units()].iter_mut().enumerate() {
            *here = self.is_there(row, index);
        }
        there
    }
}
