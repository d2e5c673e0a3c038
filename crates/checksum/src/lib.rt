// Checksums of bytes, CRC32 and CRC32C, of a whole slice or of one slice after another.
#![tactic(auto)]

mod kind;
mod running;
mod tables;

pub use kind::Checksum;
pub use running::Running;

#[cfg(test)]
mod tests;
