// Frames, read: what a frame tells, or why it is refused.
//
//   00 00 00 11  00 19   09 ..   e3 06 92 83   31 32 33 34 35 36 37 38 39
//   |            |       |       |             |
//   |            |       |       |             data, the last data_len bytes
//   |            |       |       checksums, one for each run of bytes_per_checksum bytes of data
//   |            |       header, a message
//   |            header length
//   payload length: its own four bytes, the checksums and the data
#![tactic(auto)]

mod frame;
mod payload;
mod sums;

pub use frame::read_frame;

#[cfg(test)]
mod tests;
