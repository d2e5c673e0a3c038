// Why a frame or a response is refused.
ghost use Rattle.std.specs.Prelude.{◌≡◌};
ghost use Rattle.packets.specs.Faults.{number_of, widened};

use wire::WireFault;

// Each with the number that the refusal goes by outside the library.
#[derive(Clone, Copy, PartialEq, Eq, Debug)]
pub enum PacketFault {
    // The bytes end too early.
    CutShort = 20,
    // The bytes are no message, or there are too many of them.
    Malformed = 21,
    // A required field is missing, or the value of an enum is unknown.
    Missing = 22,
    // The payload length is under 4, or data_len is negative or too large.
    BadLength = 23,
    // Runs of no bytes have a checksum, or there are fewer checksums than runs.
    TooFewSums = 24,
    // The checksum of a run differs.
    SumDiffers = 25,
    // The packet does not have the byte due, or its offset is negative.
    NotCovered = 26,
    // The response has another known status than success.
    Refused = 31,
}

impl PacketFault {
    pub fn number(self) -> u8
        ensures { result ≡ number_of self }
    {
        self as u8
    }
}

// Stays: (d) a derived `From` has no contract, and what reads frames will promise these refusals.
impl From<WireFault> for PacketFault {
    ghost from_gives = { λ fault r. r ≡ widened fault };

    fn from(fault: WireFault) -> PacketFault {
        match fault {
            WireFault::CutShort => PacketFault::CutShort,
            WireFault::Malformed => PacketFault::Malformed,
        }
    }
}
