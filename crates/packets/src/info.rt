// By what the data of a place's packets is checked.
use checksum::Checksum;

// A response without checksum info, or with the type NULL, has none of these: nothing is checked.
#[derive(Clone, Copy, PartialEq, Eq, Debug)]
pub struct ChecksumInfo {
    pub kind: Checksum,
    // So many bytes of data have one checksum; the last run may have fewer.
    pub bytes_per_checksum: u32,
}
