// A frame: its two lengths, its header, and the payload after it.
ghost use Rattle.std.specs.Prelude.{◌≡◌, length, IfOk};
ghost use Rattle.packets.specs.Headers.{header_of};
ghost use Rattle.packets.specs.Frames.{lengths_of, frame_of};
ghost use Rattle.frames.specs.Places.{EndsAt};

use crate::payload::Asked;
use messages::{Header, Message};
use packets::{ChecksumInfo, Packet, PacketFault, PacketHeader};

// What comes of a header's bytes.
fn read_header(message: &[u8]) -> Result<PacketHeader, PacketFault>
    ensures { result ≡ header_of message.now }
{
    let mut header = PacketHeader {
        offset_in_block: 0,
        seqno: 0,
        last_packet_in_block: false,
        data_len: 0,
    };
    Header::read(message, &mut header)?;
    Ok(header)
}

impl Asked {
    // What comes of a frame by its payload length and its header length: they say how long it is.
    #[tactic(auto, using(crate::proofs::Lengths::lengths_whole))]
    fn read_lengths(self, frame: &[u8], payload: u32, head: u16) -> Result<Packet, PacketFault>
        ensures reads_the_lengths { result ≡ lengths_of self.info self.due frame.now payload head }
        ensures stays_inside { IfOk result (EndsAt (length frame.now)) }
    {
        let at = 6 + usize::from(head);
        let whole = at + (payload.max(4) as usize - 4);
        if frame.len() < whole {
            return Err(PacketFault::CutShort);
        }
        if frame.len() > whole {
            return Err(PacketFault::Malformed);
        }
        let (front, rest) = frame.split_at(at);
        let (_, message) = front.split_at(6);
        let header = read_header(message)?;
        self.read_payload(payload, at, rest, header)
    }
}

// What comes of the bytes of a frame, by what checks its data and by the byte that is due.
#[tactic(auto, using(crate::proofs::Lengths::half_at), unfolding(packets::specs::Frames::frame_of))]
pub fn read_frame(info: Option<ChecksumInfo>, due: u64, frame: &[u8]) -> Result<Packet, PacketFault>
    ensures reads_the_frame { result ≡ frame_of info due frame.now }
    ensures stays_inside { IfOk result (EndsAt (length frame.now)) }
{
    // Stays: a pattern names the six bytes; `first_chunk` would number them.
    let [p0, p1, p2, p3, h0, h1, ..] = *frame else {
        return Err(PacketFault::CutShort);
    };
    let payload = u32::from_be_bytes([p0, p1, p2, p3]);
    let head = u16::from_be_bytes([h0, h1]);
    Asked { info, due }.read_lengths(frame, payload, head)
}
