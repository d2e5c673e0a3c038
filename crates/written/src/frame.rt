// The frame of data with their checksums.
ghost use Rattle.std.specs.Prelude.{◌≡◌, ◌+◌, ◌<◌, ◌≤◌, false, length, Some};
ghost use Rattle.std.specs.Int.{w32, to_be_bytes};
ghost use Rattle.checksum.specs.Sums.{sum_of};
ghost use Rattle.packets.specs.Written.{bit_of, sum_bytes};
ghost use Rattle.wire.specs.Writes.{overwritten};
ghost use Rattle.written.specs.Frames.{empty_runs, head_bytes, header_with, frame_end, frame_over};
ghost use Rattle.written.specs.Laws.{FramesReturn};

use crate::bytes::{append, put};
use crate::faults::FrameFault;
use crate::lengths::frame_length;
use arrayvec::ArrayVec;
use checksum::Checksum;
use packets::{ChecksumInfo, PacketHeader};

// The last mark as a varint.
fn mark(last: bool) -> u8
    ensures { result ≡ bit_of last }
{
    if last { 1 } else { 0 }
}

// The lengths and the header.
fn head(payload: u32, header: PacketHeader) -> ArrayVec<u8, 31>
    ensures { result.items ≡ head_bytes payload header }
{
    let mut bytes = ArrayVec::new();
    append(&mut bytes, &payload.to_be_bytes());
    append(&mut bytes, &[0, 25, 0x09]);
    append(&mut bytes, &header.offset_in_block.to_le_bytes());
    append(&mut bytes, &[0x11]);
    append(&mut bytes, &header.seqno.to_le_bytes());
    append(&mut bytes, &[0x18, mark(header.last_packet_in_block), 0x25]);
    append(&mut bytes, &header.data_len.to_le_bytes());
    bytes
}

// The bytes of a run's checksum, the highest first.
fn run_sum(kind: Checksum, run: &[u8]) -> [u8; 4]
    ensures { result ≡ to_be_bytes w32 (sum_of kind run.now) }
{
    kind.of(run).to_be_bytes()
}

// Puts the checksum of each run at a place of a buffer, and says the place after them.
fn put_runs(info: ChecksumInfo, data: &[u8], at: usize, out: &mut [u8]) -> usize
    requires some { 0 < info.bytes_per_checksum }
    requires room { at + length (sum_bytes (Some info) «data».now) ≤ length out.old }
    ensures says_the_place_after { result ≡ at + length (sum_bytes (Some info) «data».now) }
    ensures puts_the_sums { out.new ≡ overwritten out.old at (sum_bytes (Some info) «data».now) }
{
    let mut end = at;
    for run in data.chunks(info.bytes_per_checksum as usize) {
        end = put(&run_sum(info.kind, run), end, out);
    }
    end
}

fn put_sums(info: Option<ChecksumInfo>, data: &[u8], at: usize, out: &mut [u8]) -> usize
    requires some { empty_runs info ≡ false }
    requires room { at + length (sum_bytes info «data».now) ≤ length out.old }
    ensures says_the_place_after { result ≡ at + length (sum_bytes info «data».now) }
    ensures puts_the_sums { out.new ≡ overwritten out.old at (sum_bytes info «data».now) }
{
    match info {
        // Stays: no checksums, and so nothing is put.
        None => at,
        Some(info) => put_runs(info, data, at, out),
    }
}

// Writes the frame of data that begin at an offset, and says how long it is; where it is refused, the buffer is left as it was.
#[tactic(auto, using(crate::proofs::Back::frames_return))]
pub fn write_frame(
    info: Option<ChecksumInfo>,
    offset_in_block: u64,
    seqno: u64,
    last_packet_in_block: bool,
    data: &[u8],
    out: &mut [u8],
) -> Result<usize, FrameFault>
    ensures says_its_length { result ≡ frame_end info (header_with offset_in_block seqno last_packet_in_block «data».now) «data».now out.old }
    ensures writes_the_frame { out.new ≡ frame_over info (header_with offset_in_block seqno last_packet_in_block «data».now) «data».now out.old }
    ensures is_read_back { FramesReturn }
{
    let end = frame_length(info, offset_in_block, data.len(), out.len())?;
    let header = PacketHeader {
        offset_in_block,
        seqno,
        last_packet_in_block,
        data_len: data.len() as u32,
    };
    let sums_at = put(&head((end - 27) as u32, header), 0, out);
    let data_at = put_sums(info, data, sums_at, out);
    Ok(put(data, data_at, out))
}
