// How long a frame is, and why one is not written.
ghost use Rattle.std.specs.Prelude.{◌≡◌, ◌+◌, ◌^◌, ◌<◌, ◌≤◌, false, IfOk};
ghost use Rattle.written.specs.Frames.{empty_runs, sums_len, payload_len, end_by};

use crate::faults::FrameFault;
use packets::ChecksumInfo;

// Whether a run is of no bytes.
fn has_empty_runs(info: Option<ChecksumInfo>) -> bool
    ensures { result ≡ empty_runs info }
{
    info.is_some_and(|info| info.bytes_per_checksum == 0)
}

// How many bytes the checksums of data have.
#[tactic(auto, using(crate::proofs::Sums::counts))]
fn length_of_sums(info: Option<ChecksumInfo>, len: usize) -> usize
    requires some { empty_runs info ≡ false }
    requires few { len < 2 ^ 31 }
    ensures value { result ≡ sums_len info len }
    ensures bound { result < 2 ^ 36 }
{
    match info {
        // Stays: no checksums have no bytes.
        None => 0,
        Some(info) => {
            let run = info.bytes_per_checksum as usize;
            (len + run - 1) / run * 4
        }
    }
}

// The length of a frame of data that fit, in a buffer that has room.
pub(crate) fn frame_length(
    info: Option<ChecksumInfo>,
    offset: u64,
    len: usize,
    room: usize,
) -> Result<usize, FrameFault>
    ensures value { result ≡ end_by info offset len room (27 + payload_len info len) }
    ensures some { IfOk result (λ end. empty_runs info ≡ false) }
    ensures size { IfOk result (λ end. end ≡ 27 + payload_len info len) }
    ensures fits { IfOk result (λ end. end ≤ room) }
    ensures few { IfOk result (λ end. payload_len info len < 2 ^ 32) }
{
    if has_empty_runs(info) {
        return Err(FrameFault::EmptyRuns);
    }
    if len >= 1 << 31 {
        return Err(FrameFault::BadLength);
    }
    let payload = 4 + length_of_sums(info, len) + len;
    if payload >= 1 << 32 {
        return Err(FrameFault::BadLength);
    }
    if offset >= 1 << 63 || offset + len as u64 > 1 << 63 {
        return Err(FrameFault::BadOffset);
    }
    let end = 27 + payload;
    if room < end {
        return Err(FrameFault::Short);
    }
    Ok(end)
}
