// The published values by the calls of the library, held to a stored list; that the definitions give them is proved.
#![tactic(auto)]

ghost use Rattle.std.specs.Prelude.{◌≡◌};
ghost use Rattle.published.specs.Published.{PublishedValues, count_of};

use cells::{StripedBlock, row_range};
use checksum::Checksum;
use policy::{Codec, EcSchema};
use std::io;
use stripe::encode;

// How many values are published: all of them follow from the definitions.
pub fn published_values() -> u8
    ensures listed { PublishedValues }
    ensures counted { result ≡ count_of }
{
    12
}

// The parity cells of three data cells of one byte each.
fn print_parity(rt: &HostRuntime) -> io::Result<()> {
    let schema = EcSchema::new(Codec::Rs, 3, 2, 1).unwrap();
    let mut row = [1u8, 2, 3, 0, 0];
    encode(schema, &mut row).unwrap();
    let [a, b, c, p, q] = row;
    println!(rt; "cells {a:02X} {b:02X} {c:02X} have the parity {p:02X} {q:02X}")
}

// The shards of a block of 30 bytes, and a range of it row by row.
fn print_cells(rt: &HostRuntime) -> io::Result<()> {
    let schema = EcSchema::new(Codec::Rs, 3, 2, 4).unwrap();
    let block = StripedBlock { schema, len: 30 };
    (0..schema.units()).try_for_each(|i| {
        let len = block.max_offset(i);
        println!(rt; "shard {i} of a block of 30 bytes has {len}")
    })?;
    (0..3).try_for_each(|k| {
        let len = row_range(schema, k, 5, 20).len;
        println!(rt; "reading 20 bytes from 5 hands out {len} in row {k}")
    })
}

fn print_checksums(rt: &HostRuntime) -> io::Result<()> {
    let digits = b"123456789";
    let crc32 = Checksum::Crc32.of(digits);
    let crc32c = Checksum::Crc32c.of(digits);
    println!(rt; "123456789 has the CRC32 {crc32:08X} and the CRC32C {crc32c:08X}")
}

fn main(rt: HostRuntime) -> io::Result<()> {
    let count = published_values();
    println!(rt; "{count} published values follow from the definitions")?;
    print_parity(&rt)?;
    print_cells(&rt)?;
    print_checksums(&rt)
}
