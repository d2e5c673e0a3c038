// The payload of a frame: its checksums, and the data at its end.
ghost use Rattle.std.specs.Prelude.{◌≡◌, ◌+◌, ◌<◌, ◌^◌, length, IfOk};
ghost use Rattle.packets.specs.Frames.{covers, bad_length, data_of, payload_of};
ghost use Rattle.frames.specs.Places.{EndsAt};

use crate::sums::{has_enough_sums, has_matching_sums};
use packets::{ChecksumInfo, Packet, PacketFault, PacketHeader};

// Whether the packet has a byte, and its offset is not negative.
fn covers_byte(header: PacketHeader, due: u64) -> bool
    ensures { result ≡ covers header due }
{
    header.offset_in_block < 1 << 63
        && header.offset_in_block <= due
        && due - header.offset_in_block < u64::from(header.data_len)
}

// Whether data_len or the payload's length cannot be, by the bytes after the header.
fn has_bad_length(payload: u32, rest: &[u8], header: PacketHeader) -> bool
    ensures { result ≡ bad_length payload rest.now header }
{
    payload < 4 || header.data_len >= 1 << 31 || rest.len() < header.data_len as usize
}

// What is asked of a frame: by what its data are checked, and the byte that is due.
#[derive(Clone, Copy, PartialEq, Eq, Debug)]
pub(crate) struct Asked {
    pub info: Option<ChecksumInfo>,
    pub due: u64,
}

impl Asked {
    // What comes of a frame by its checksums and its data, which begin at a place.
    fn read_data(
        self,
        header: PacketHeader,
        sums: &[u8],
        bytes: &[u8],
        at: usize,
    ) -> Result<Packet, PacketFault>
        requires whole { length bytes.now ≡ header.data_len }
        requires inside { at + length bytes.now < 2 ^ 64 }
        ensures reads_the_data { result ≡ data_of self.info self.due header sums.now bytes.now at }
        ensures stays_inside { IfOk result (EndsAt (at + length bytes.now)) }
    {
        if let Some(info) = self.info {
            if !has_enough_sums(info, sums, bytes) {
                return Err(PacketFault::TooFewSums);
            }
            if !has_matching_sums(info, sums, bytes) {
                return Err(PacketFault::SumDiffers);
            }
        }
        if !covers_byte(header, self.due) {
            return Err(PacketFault::NotCovered);
        }
        Ok(Packet {
            header,
            data_at: at,
            len: bytes.len(),
            due_at: at + (self.due - header.offset_in_block) as usize,
        })
    }

    // What comes of a frame by the bytes after its header, which begin at a place.
    pub fn read_payload(
        self,
        payload: u32,
        at: usize,
        rest: &[u8],
        header: PacketHeader,
    ) -> Result<Packet, PacketFault>
        requires inside { at + length rest.now < 2 ^ 64 }
        ensures reads_the_payload { result ≡ payload_of self.info self.due payload at rest.now header }
        ensures stays_inside { IfOk result (EndsAt (at + length rest.now)) }
    {
        if has_bad_length(payload, rest, header) {
            return Err(PacketFault::BadLength);
        }
        let (sums, bytes) = rest.split_at(rest.len() - header.data_len as usize);
        self.read_data(header, sums, bytes, at + sums.len())
    }
}
