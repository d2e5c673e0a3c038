// Messages read from their bytes: the kinds of messages, and what each tells.
//
//   09 00 02 00 00 00 00 00 00   11 ..   18 00   25 09 00 00 00
//   |                            |       |       |
//   field 1, eight bytes         field 2 field 3 field 4, four bytes
//
//   PacketHeader { offset_in_block: 512, seqno: .., last_packet_in_block: false, data_len: 9 }
//
// A response holds messages, and these hold others: it is walked once for each level of them.
#![tactic(auto)]

mod fields;
mod headers;
mod known;
mod message;
mod parts;
mod responses;

pub use headers::Header;
pub use message::Message;
pub use responses::Response;
