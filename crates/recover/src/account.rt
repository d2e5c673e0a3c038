// The account of a block that was put together again.
use cells::StripedBlock;
use checksum::Checksum;
use policy::EcSchema;
use rebuild::HeldShards;
use std::io;

fn print_scheme(rt: &HostRuntime, block: StripedBlock) -> io::Result<()> {
    let EcSchema {
        codec,
        data_units,
        parity_units,
        cell_size,
        ..
    } = block.schema;
    let len = block.len;
    let rows = block.row_count();
    println!(rt;
        "scheme: {codec}, {data_units} data and {parity_units} parity units, cells of {cell_size} bytes"
    )?;
    println!(rt; "block: {len} bytes in {rows} rows")
}

// A shard's length, and whether it is there.
fn print_shard(rt: &HostRuntime, i: usize, len: u64, shard: Option<&[u8]>) -> io::Result<()> {
    match shard.map(|bytes| bytes.len()) {
        None => println!(rt; "shard {i}: {len} bytes, missing"),
        Some(found) if found as u64 == len => println!(rt; "shard {i}: {len} bytes, there"),
        Some(found) => println!(rt; "shard {i}: {len} bytes, left out: its file has {found}"),
    }
}

// The data cells of a row that were made again, and the shards that they were made from.
fn print_row(rt: &HostRuntime, schema: EcSchema, row: u64, there: &[bool; 16]) -> io::Result<()> {
    let d = schema.data_units;
    print!(rt; "row {row}:")?;
    if there[..d].iter().all(|there| *there) {
        return println!(rt; " all data cells there");
    }
    for (i, _) in there[..d].iter().enumerate().filter(|(_, there)| !**there) {
        print!(rt; " cell {i}")?;
    }
    print!(rt; " made again from shards")?;
    let sources = there.iter().enumerate().filter(|(_, there)| **there);
    for (i, _) in sources.take(d) {
        print!(rt; " {i}")?;
    }
    println!(rt; "")
}

pub(crate) fn print_account(
    rt: &HostRuntime,
    held: HeldShards<'_>,
    bytes: &[u8],
) -> io::Result<()> {
    let HeldShards { block, shards } = held;
    print_scheme(rt, block)?;
    for (i, shard) in shards.iter().enumerate() {
        print_shard(rt, i, block.max_offset(i), *shard)?;
    }
    (0..block.row_count()).try_for_each(|row| print_row(
        rt,
        block.schema,
        row,
        &held.cells_there(row),
    ))?;
    let digest = Checksum::Crc32.of(bytes);
    println!(rt; "digest: CRC-32 {digest:08x}")
}
