// What an accepted frame tells.
use crate::header::PacketHeader;

// The data are `len` bytes of the frame from `data_at` on; `due_at` is the place in the frame of the byte due.
#[derive(Clone, Copy, PartialEq, Eq, Debug)]
pub struct Packet {
    pub header: PacketHeader,
    pub data_at: usize,
    pub len: usize,
    pub due_at: usize,
}
