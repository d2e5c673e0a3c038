// Puts a block together again from the files of its shards, and prints an account of it.
#![tactic(auto)]

mod account;
mod refusal;
mod request;
mod shards;
#[cfg(test)]
mod tests;

use account::print_account;
use rebuild::HeldShards;
use refusal::Refusal;
use request::{Request, read_request};
use shards::read_shards;
use std::process::ExitCode;
use std::{env, fs};

const HELP: &str = "recover: puts a block together again from the files of its shards

usage: recover --policy NAME                    BLOCK_LENGTH FOLDER OUT
       recover --id N                           BLOCK_LENGTH FOLDER OUT
       recover --schema CODEC,DATA,PARITY,CELL  BLOCK_LENGTH FOLDER OUT
       recover --help

  NAME          RS-6-3-1024k, RS-3-2-1024k, RS-LEGACY-6-3-1024k, XOR-2-1-1024k or RS-10-4-1024k
  N             the policy's id, 1 to 5
  CODEC,..      rs, rs-legacy or xor, then data units, parity units and bytes of a cell
  BLOCK_LENGTH  how many bytes the block has
  FOLDER        has the files shard-0, shard-1, ..; a shard that is lost has none
  OUT           the file that the block is written to

It prints which shards are there, which cells are made again from which shards, and the CRC-32 of
the block. What cannot be done is refused by number and in words; nothing is written then.";

// Reads the shards, puts the block together, prints the account and writes the block.
fn run(rt: &HostRuntime, request: &Request<'_>) -> Result<(), Refusal> {
    let files = read_shards(rt, request)?;
    let views = files.views(rt.alloc())?;
    let held = HeldShards {
        block: request.block,
        shards: views.as_slice(),
    };
    let bytes = held.rebuild(rt.alloc())?;
    print_account(rt, held, bytes.as_slice())?;
    fs::write(rt, request.out, bytes.as_slice())?;
    Ok(())
}

fn start(rt: &HostRuntime) -> Result<(), Refusal> {
    let args: Vec<String> = env::args(rt)?.collect(rt.alloc())?;
    let words: Vec<&str> = args.iter().map(|word| word.as_str()).collect(rt.alloc())?;
    if let [_, "--help" | "-h"] = words.as_slice() {
        rt.println(HELP)?;
        return Ok(());
    }
    run(rt, &read_request(words.as_slice())?)
}

fn main(rt: HostRuntime) -> ExitCode {
    let Err(refusal) = start(&rt) else {
        return ExitCode::SUCCESS;
    };
    let number = refusal.number();
    // the status tells it all the same where this can't be written
    let _ = eprintln!(rt; "recover: refused {number}: {refusal}");
    ExitCode::FAILURE
}
