// Fields of a protobuf message, read one at a time from a place in it, and varints as they are written.
//
//   08 96 01                       field 1, varint 150
//   12 07 74 65 73 74 69 6e 67     field 2, a part of 7 bytes, "testing"
//   |  |  |
//   |  |  place of the part
//   |  length, a varint
//   key, a varint: field number * 8 + wire type
#![tactic(auto)]

mod faults;
mod fields;
mod rest;
mod varints;
mod writing;

pub use faults::WireFault;
pub use fields::{WireField, WireValue, read_field};
pub use varints::{Varint, read_varint};
pub use writing::{WriteFault, write_varint};
