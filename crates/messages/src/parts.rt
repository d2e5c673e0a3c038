// The messages that a response is made of, each by what is known of its fields.
ghost use Rattle.std.specs.Prelude.{◌≡◌};
ghost use Rattle.wire.specs.Numbers.{low32};
ghost use Rattle.packets.specs.Kinds.{block_op_response, op_block_checksum_response, block_checksum_options, read_op_checksum_info, checksum_proto, fits};
ghost use Rattle.packets.specs.Messages.{among};
ghost use Rattle.messages.specs.PartFields.{with_response_field, with_checksums_field, with_options_field, with_info_field, with_checksum_field};

use crate::fields::Gathered;
use wire::{WireFault, WireField, WireValue};

// What a field of 32 bits takes of a varint.
pub(crate) fn low_bits(number: u64) -> u32
    ensures { result ≡ low32 number }
{
    (number % 0x1_0000_0000) as u32
}

// Whether an enum, if it is sent, has a value that is known.
pub(crate) fn is_among(value: Option<u64>, lowest: u32, highest: u32) -> bool
    ensures { result ≡ among lowest highest value }
{
    value.is_none_or(|number| lowest <= low_bits(number) && low_bits(number) <= highest)
}

// BlockOpResponseProto.
#[derive(Clone, Copy, PartialEq, Eq, Debug, Default)]
pub(crate) struct ResponseFields {
    pub status: Option<u64>,
}

impl Gathered for ResponseFields {
    ghost fitting = { fits block_op_response };

    ghost with_one = { with_response_field };

    fn with(self, field: WireField<'_>) -> Result<ResponseFields, WireFault> {
        let mut fields = self;
        match (field.number, field.value) {
            (1, WireValue::Varint(number)) => fields.status = Some(number),
            (6, WireValue::Varint(_)) | (2..=5, WireValue::Part { .. }) => {}
            // Stays: the wire types of a message's fields are asked for here alone.
            (1..=6, _) => return Err(WireFault::Malformed),
            _ => {}
        }
        Ok(fields)
    }
}

// OpBlockChecksumResponseProto.
#[derive(Clone, Copy, PartialEq, Eq, Debug, Default)]
pub(crate) struct ChecksumsFields {
    pub bytes_per_crc: bool,
    pub crc_per_block: bool,
    pub block_checksum: bool,
    pub crc_type: Option<u64>,
}

impl Gathered for ChecksumsFields {
    ghost fitting = { fits op_block_checksum_response };

    ghost with_one = { with_checksums_field };

    fn with(self, field: WireField<'_>) -> Result<ChecksumsFields, WireFault> {
        let mut fields = self;
        match (field.number, field.value) {
            (1, WireValue::Varint(_)) => fields.bytes_per_crc = true,
            (2, WireValue::Varint(_)) => fields.crc_per_block = true,
            (3, WireValue::Part { .. }) => fields.block_checksum = true,
            (4, WireValue::Varint(number)) => fields.crc_type = Some(number),
            (5, WireValue::Part { .. }) => {}
            // Stays: the wire types of a message's fields are asked for here alone.
            (1..=5, _) => return Err(WireFault::Malformed),
            _ => {}
        }
        Ok(fields)
    }
}

// BlockChecksumOptionsProto.
#[derive(Clone, Copy, PartialEq, Eq, Debug, Default)]
pub(crate) struct OptionsFields {
    pub block_checksum_type: Option<u64>,
}

impl Gathered for OptionsFields {
    ghost fitting = { fits block_checksum_options };

    ghost with_one = { with_options_field };

    fn with(self, field: WireField<'_>) -> Result<OptionsFields, WireFault> {
        let mut fields = self;
        match (field.number, field.value) {
            (1, WireValue::Varint(number)) => fields.block_checksum_type = Some(number),
            (2, WireValue::Varint(_)) => {}
            // Stays: the wire types of a message's fields are asked for here alone.
            (1..=2, _) => return Err(WireFault::Malformed),
            _ => {}
        }
        Ok(fields)
    }
}

// ReadOpChecksumInfoProto.
#[derive(Clone, Copy, PartialEq, Eq, Debug, Default)]
pub(crate) struct InfoFields {
    pub checksum: bool,
    pub chunk_offset: bool,
}

impl Gathered for InfoFields {
    ghost fitting = { fits read_op_checksum_info };

    ghost with_one = { with_info_field };

    fn with(self, field: WireField<'_>) -> Result<InfoFields, WireFault> {
        let mut fields = self;
        match (field.number, field.value) {
            (1, WireValue::Part { .. }) => fields.checksum = true,
            (2, WireValue::Varint(_)) => fields.chunk_offset = true,
            // Stays: the wire types of a message's fields are asked for here alone.
            (1..=2, _) => return Err(WireFault::Malformed),
            _ => {}
        }
        Ok(fields)
    }
}

// ChecksumProto.
#[derive(Clone, Copy, PartialEq, Eq, Debug, Default)]
pub(crate) struct ChecksumFields {
    pub checksum_type: Option<u64>,
    pub bytes_per_checksum: Option<u64>,
}

impl Gathered for ChecksumFields {
    ghost fitting = { fits checksum_proto };

    ghost with_one = { with_checksum_field };

    fn with(self, field: WireField<'_>) -> Result<ChecksumFields, WireFault> {
        let mut fields = self;
        match (field.number, field.value) {
            (1, WireValue::Varint(number)) => fields.checksum_type = Some(number),
            (2, WireValue::Varint(number)) => fields.bytes_per_checksum = Some(number),
            // Stays: the wire types of a message's fields are asked for here alone.
            (1..=2, _) => return Err(WireFault::Malformed),
            _ => {}
        }
        Ok(fields)
    }
}
