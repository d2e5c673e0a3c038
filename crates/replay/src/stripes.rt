// Parity made from data cells, and data cells made again from shards.
ghost use Rattle.std.specs.Prelude.{◌<◌};

use crate::answer::Answer;
use crate::fault::Fault;
use crate::hex::read_bytes;
use crate::question::Units;
use policy::{Codec, EcSchema};
use std::alloc::{AllocError, Global};
use std::{array, iter};
use stripe::{encode, recover};

// The bytes of a shard that is there.
type Shard = Option<Vec<u8>>;

fn add_zeros(row: &mut Vec<u8>, count: usize) -> Result<(), AllocError> {
    row.extend(iter::repeat_n(0, count))
}

// The data cells of a row, with room for its parity cells after them.
fn lay_data(heap: Global, schema: EcSchema, cells: &[&str]) -> Result<Vec<u8>, Fault> {
    let mut row = Vec::new(heap);
    for word in cells {
        let cell = read_bytes(heap, word)?;
        if cell.len() != schema.cell_size {
            return Err(Fault::Form);
        }
        row.extend_from_slice(cell.as_slice())?;
    }
    add_zeros(&mut row, schema.parity_units * schema.cell_size)?;
    Ok(row)
}

// A shard that is missing is written as a dash.
fn read_shard(heap: Global, word: &str) -> Result<Shard, Fault> {
    match word {
        "-" => Ok(None),
        bytes => Ok(Some(read_bytes(heap, bytes)?)),
    }
}

// How many rows the shards have, which are all as long; with no shard there is still a row to ask for.
fn count_rows(shards: &[Shard], cell_size: usize) -> Result<usize, Fault>
    requires { 0 < cell_size }
{
    let mut lens = shards.iter().flatten().map(|bytes| bytes.len());
    let Some(len) = lens.next() else {
        return Ok(1);
    };
    if len % cell_size != 0 || lens.any(|other| other != len) {
        return Err(Fault::Form);
    }
    Ok(len / cell_size)
}

// Which of the cells of each row are there.
fn flags(shards: &[Shard]) -> [bool; 16] {
    array::from_fn(|i| matches!(shards.get(i), Some(Some(_))))
}

// The cells of a row, zeros where one is missing.
fn lay_row(heap: Global, shards: &[Shard], cell_size: usize, at: usize) -> Result<Vec<u8>, Fault>
    requires { 0 < cell_size }
{
    let mut row = Vec::new(heap);
    for shard in shards {
        match shard {
            None => add_zeros(&mut row, cell_size)?,
            Some(bytes) => {
                let cell = bytes
                    .as_slice()
                    .chunks(cell_size)
                    .nth(at)
                    .ok_or(Fault::Form)?;
                row.extend_from_slice(cell)?;
            }
        }
    }
    Ok(row)
}

impl Answer {
    // The parity cells of the data cells, which are all as long as the first.
    pub(crate) fn write_parity(
        &mut self,
        codec: Codec,
        units: Units,
        cells: &[&str],
    ) -> Result<(), Fault> {
        let digits = cells.first().map_or(0, |word| word.len());
        let schema = units.schema(codec, digits / 2)?;
        if cells.len() != units.data {
            return Err(Fault::Form);
        }
        let mut row = lay_data(self.heap(), schema, cells)?;
        encode(schema, row.as_mut_slice())?;
        let cells = row.as_slice().chunks(schema.cell_size);
        self.write_parts(cells.skip(units.data))?;
        Ok(())
    }

    // The data cells of a row.
    fn write_row_data(
        &mut self,
        schema: EcSchema,
        shards: &[Shard],
        at: usize,
    ) -> Result<(), Fault> {
        let mut row = lay_row(self.heap(), shards, schema.cell_size, at)?;
        recover(schema, &flags(shards), row.as_mut_slice())?;
        let cells = row.as_slice().chunks(schema.cell_size);
        self.write_parts(cells.take(schema.data_units))?;
        Ok(())
    }

    // The data cells of all rows, row by row.
    pub(crate) fn write_data(&mut self, schema: EcSchema, words: &[&str]) -> Result<(), Fault> {
        if words.len() != schema.units() {
            return Err(Fault::Form);
        }
        let heap = self.heap();
        let shards: Vec<Shard> = words
            .iter()
            .map(|word| read_shard(heap, word))
            .try_collect(heap)?;
        let shards = shards.as_slice();
        let rows = count_rows(shards, schema.cell_size)?;
        (0..rows).try_for_each(|at| self.write_row_data(schema, shards, at))
    }
}
