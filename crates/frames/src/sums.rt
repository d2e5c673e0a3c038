// The checksums of a frame's data.
ghost use Rattle.std.specs.Prelude.{◌≡◌, true};
ghost use Rattle.packets.specs.Frames.{enough_sums, sums_match};

use packets::ChecksumInfo;

// Whether runs are of some bytes, and each has a checksum.
#[tactic(auto, using(crate::proofs::Counts::count_rounds_up))]
pub(crate) fn has_enough_sums(info: ChecksumInfo, sums: &[u8], bytes: &[u8]) -> bool
    ensures { result ≡ enough_sums info sums.now bytes.now }
{
    let size = info.bytes_per_checksum as usize;
    size != 0 && bytes.len().div_ceil(size) <= sums.len() / 4
}

// Whether the checksum of each run is the one that stands for it.
pub(crate) fn has_matching_sums(info: ChecksumInfo, sums: &[u8], bytes: &[u8]) -> bool
    requires has_enough_sums { enough_sums info sums.now bytes.now ≡ true }
    ensures { result ≡ sums_match info sums.now bytes.now }
{
    let (sums, _) = sums.as_chunks::<4>();
    bytes
        .chunks(info.bytes_per_checksum as usize)
        .zip(sums)
        .all(|(run, sum)| u32::from_be_bytes(*sum) == info.kind.of(run))
}
