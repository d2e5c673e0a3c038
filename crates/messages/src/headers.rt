// The header of a packet as a kind of message.
ghost use Rattle.std.specs.Prelude.{◌≡◌};
ghost use Rattle.packets.specs.Kinds.{packet_header, fits};
ghost use Rattle.packets.specs.Headers.{header_of};
ghost use Rattle.messages.specs.HeaderFields.{with_header_field, header_by};

use crate::fields::{Gathered, read_fields};
use crate::message::Message;
use packets::{PacketFault, PacketHeader};
use wire::{WireFault, WireField, WireValue};

// The fields of a header so far; of one that is sent more than once the last counts.
#[derive(Clone, Copy, PartialEq, Eq, Debug, Default)]
struct HeaderFields {
    offset_in_block: Option<u64>,
    seqno: Option<u64>,
    last_packet_in_block: Option<u64>,
    data_len: Option<u32>,
}

impl Gathered for HeaderFields {
    ghost fitting = { fits packet_header };

    ghost with_one = { with_header_field };

    fn with(self, field: WireField<'_>) -> Result<HeaderFields, WireFault> {
        let mut fields = self;
        match (field.number, field.value) {
            (1, WireValue::Fixed64(number)) => fields.offset_in_block = Some(number),
            (2, WireValue::Fixed64(number)) => fields.seqno = Some(number),
            (3, WireValue::Varint(number)) => fields.last_packet_in_block = Some(number),
            (4, WireValue::Fixed32(number)) => fields.data_len = Some(number),
            (5, WireValue::Varint(_)) => {}
            // Stays: the wire types of a header's fields are asked for here alone.
            (1..=5, _) => return Err(WireFault::Malformed),
            _ => {}
        }
        Ok(fields)
    }
}

impl HeaderFields {
    // The header, if all that is required is there.
    fn header(self) -> Option<PacketHeader>
        ensures { result ≡ header_by self }
    {
        Some(PacketHeader {
            offset_in_block: self.offset_in_block?,
            seqno: self.seqno?,
            last_packet_in_block: self.last_packet_in_block? != 0,
            data_len: self.data_len?,
        })
    }
}

// The header of a packet.
#[derive(Clone, Copy, PartialEq, Eq, Debug)]
pub struct Header;

impl Message for Header {
    type Record = PacketHeader;

    ghost meaning = { header_of };

    #[tactic(auto, using(crate::proofs::HeaderFold::header_reading))]
    fn read(message: &[u8], out: &mut PacketHeader) -> Result<(), PacketFault> {
        let fields = read_fields(message, HeaderFields::default())?;
        *out = fields.header().ok_or(PacketFault::Missing)?;
        Ok(())
    }
}
