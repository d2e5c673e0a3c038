// The response to an opening as a kind of message.
ghost use Rattle.std.specs.Prelude.{◌≡◌, Bool};
ghost use Rattle.packets.specs.Responses.{response_of};
ghost use Rattle.messages.specs.Levels.{known_of};
ghost use Rattle.messages.specs.ResponseBy.{response_complete, checksums_complete, options_complete, info_complete, checksum_complete, all_there, info_by, response_by};

use crate::known::{Kind, Known};
use crate::message::Message;
use crate::parts::{
    ChecksumFields, ChecksumsFields, InfoFields, OptionsFields, ResponseFields, is_among, low_bits,
};
use checksum::Checksum;
use packets::{ChecksumInfo, PacketFault};
use wire::WireFault;

impl ResponseFields {
    fn is_complete(self) -> bool
        ensures { result ≡ response_complete self }
    {
        self.status.is_some() && is_among(self.status, 0, 13)
    }
}

impl ChecksumsFields {
    fn is_complete(self) -> bool
        ensures { result ≡ checksums_complete self }
    {
        self.bytes_per_crc
            && self.crc_per_block
            && self.block_checksum
            && is_among(self.crc_type, 0, 2)
    }
}

impl OptionsFields {
    fn is_complete(self) -> bool
        ensures { result ≡ options_complete self }
    {
        is_among(self.block_checksum_type, 1, 2)
    }
}

impl InfoFields {
    fn is_complete(self) -> bool
        ensures { result ≡ info_complete self }
    {
        self.checksum && self.chunk_offset
    }
}

impl ChecksumFields {
    fn is_complete(self) -> bool
        ensures { result ≡ checksum_complete self }
    {
        self.checksum_type.is_some()
            && self.bytes_per_checksum.is_some()
            && is_among(self.checksum_type, 0, 2)
    }

    // By what data are checked; a checksum of runs of no bytes is refused.
    fn info(self) -> Result<Option<ChecksumInfo>, PacketFault>
        ensures { result ≡ info_by self }
    {
        let bytes_per_checksum = low_bits(self.bytes_per_checksum.unwrap_or(0));
        let kind = match low_bits(self.checksum_type.unwrap_or(0)) {
            1 => Checksum::Crc32,
            2 => Checksum::Crc32c,
            _ => return Ok(None),
        };
        if bytes_per_checksum == 0 {
            return Err(PacketFault::TooFewSums);
        }
        Ok(Some(ChecksumInfo {
            kind,
            bytes_per_checksum,
        }))
    }
}

impl Known {
    // A response, the messages in it, and those in these; each level is read in full before the next.
    fn of_response(message: &[u8]) -> Result<Known, WireFault>
        ensures { result ≡ known_of message.now }
    {
        let outer = Known::default().open(Kind::Response, message)?;
        let inner = outer.open_inner(Kind::Response, message)?;
        inner.open_deeper(Kind::Response, message)
    }

    // Whether each message that is there has what is required of it.
    fn is_complete(self) -> bool
        ensures { result ≡ all_there self }
    {
        self.response.is_none_or(|fields| fields.is_complete())
            && self.checksums.is_none_or(|fields| fields.is_complete())
            && self.info.is_none_or(|fields| fields.is_complete())
            && self.options.is_none_or(|fields| fields.is_complete())
            && self.checksum.is_none_or(|fields| fields.is_complete())
    }

    // Just the status 0 opens.
    fn told(self) -> Result<Option<ChecksumInfo>, PacketFault>
        ensures { result ≡ response_by self }
    {
        if !self.is_complete() {
            return Err(PacketFault::Missing);
        }
        let response = self.response.unwrap_or(ResponseFields { status: None });
        if low_bits(response.status.unwrap_or(0)) != 0 {
            return Err(PacketFault::Refused);
        }
        match self.checksum {
            Some(fields) => fields.info(),
            None => Ok(None),
        }
    }
}

// The response to an opening: by what the data that follow are checked, if they are.
#[derive(Clone, Copy, PartialEq, Eq, Debug)]
pub struct Response;

impl Message for Response {
    type Record = Option<ChecksumInfo>;

    ghost meaning = { response_of };

    #[tactic(auto, using(crate::proofs::ResponseFold::response_reading))]
    fn read(message: &[u8], out: &mut Option<ChecksumInfo>) -> Result<(), PacketFault> {
        // Stays: (c) tried `*out = ..?`: the search leaves what a refusal leaves of the record.
        match Known::of_response(message)?.told() {
            Ok(info) => *out = info,
            Err(fault) => return Err(fault),
        }
        Ok(())
    }
}
