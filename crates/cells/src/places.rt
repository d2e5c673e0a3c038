// Where a byte of the block lies.
ghost use Rattle.std.specs.Prelude.{◌≡◌, ℕ, ◌+◌, ◌*◌, ◌<◌, List, length};
ghost use Rattle.dealing.specs.Places.{cell_of, row_of, shard_of, row_bytes, row_place, shard_place, byte_of};
ghost use Rattle.dealing.specs.Laws.{Placed};
ghost use Rattle.cells.specs.Found.{location_of};

use policy::EcSchema;

#[derive(Clone, Copy, PartialEq, Eq, Debug)]
pub struct Location {
    pub cell: u64,
    pub row: u64,
    pub shard: usize,
    pub offset_in_shard: u64,
    pub offset_in_cell: usize,
}

// How many bytes the data cells of a row have together.
pub fn row_size(schema: EcSchema) -> usize
    ensures { result ≡ row_bytes schema.data_units schema.cell_size }
{
    schema.data_units * schema.cell_size
}

pub fn cell_for_offset(schema: EcSchema, offset: u64) -> u64
    ensures { result ≡ cell_of schema.cell_size offset }
{
    offset / schema.cell_size as u64
}

pub fn row_for_cell(schema: EcSchema, cell: u64) -> u64
    ensures { result ≡ row_of schema.data_units cell }
{
    cell / schema.data_units as u64
}

pub fn shard_for_cell(schema: EcSchema, cell: u64) -> usize
    ensures { result ≡ shard_of schema.data_units cell }
{
    (cell % schema.data_units as u64) as usize
}

// Where in every shard its cell of the row begins. As wide as the product can be.
pub fn offset_for_row(schema: EcSchema, row: u64) -> u128
    ensures { result ≡ row_place schema.cell_size row }
{
    row as u128 * schema.cell_size as u128
}

// The place in its shard of a byte of the block: no further than the byte itself.
fn place_in_shard(schema: EcSchema, offset: u64) -> u64
    ensures { result ≡ shard_place schema.data_units schema.cell_size offset }
{
    let row = row_for_cell(schema, cell_for_offset(schema, offset));
    let size = schema.cell_size as u64;
    row * size + offset % size
}

// The one place of a byte of the block.
pub fn locate(schema: EcSchema, offset: u64) -> Location
    ensures value { result ≡ location_of schema.data_units schema.cell_size offset }
    ensures placed { (block : List ℕ) → offset < length block
        → Placed schema.data_units schema.cell_size block offset
        result.cell result.row result.shard result.offset_in_shard result.offset_in_cell }
    ensures found_back { byte_of schema.data_units schema.cell_size result.shard result.offset_in_shard ≡ offset }
{
    let cell = cell_for_offset(schema, offset);
    Location {
        cell,
        row: row_for_cell(schema, cell),
        shard: shard_for_cell(schema, cell),
        offset_in_shard: place_in_shard(schema, offset),
        offset_in_cell: (offset % schema.cell_size as u64) as usize,
    }
}
