// The header of a packet.

// Numbers are in two's complement, as the fields of fixed width have them: an offset of 2^63 and a length of 2^31 or more are negative.
#[derive(Clone, Copy, PartialEq, Eq, Debug)]
pub struct PacketHeader {
    // Of the first byte of data.
    pub offset_in_block: u64,
    pub seqno: u64,
    pub last_packet_in_block: bool,
    pub data_len: u32,
}
