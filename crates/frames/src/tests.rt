// The frame of nine digits, with its checksum and with bytes changed.
use crate::frame::read_frame;
use checksum::Checksum;
use packets::{ChecksumInfo, PacketFault};

const FRAME: [u8; 44] = [
    0, 0, 0, 17, 0, 25, 9, 0, 0, 0, 0, 0, 0, 0, 0, 17, 0, 0, 0, 0, 0, 0, 0, 0, 24, 0, 37, 9, 0, 0,
    0, 0xE3, 6, 0x92, 0x83, 49, 50, 51, 52, 53, 54, 55, 56, 57,
];

const BY_512: Option<ChecksumInfo> = Some(ChecksumInfo {
    kind: Checksum::Crc32c,
    bytes_per_checksum: 512,
});

#[test]
fn nine_digits(rt: HostRuntime) {
    let info = BY_512;
    let packet = read_frame(info, 8, &FRAME);
    assert_eq!(rt;
        packet.map(|p| (p.data_at, p.len, p.due_at)),
        Ok((35, 9, 43))
    );
    assert_eq!(rt;
        read_frame(info, 9, &FRAME).map(|p| p.len),
        Err(PacketFault::NotCovered)
    );
    assert_eq!(rt;
        read_frame(info, 0, &FRAME[..43]).map(|p| p.len),
        Err(PacketFault::CutShort)
    );
    for (at, byte, fault) in [
        (31, 0xCB, PacketFault::SumDiffers),
        (3, 16, PacketFault::Malformed),
        (27, 10, PacketFault::TooFewSums),
        (27, 18, PacketFault::BadLength),
    ] {
        let mut frame = FRAME;
        frame[at] = byte;
        assert_eq!(rt; read_frame(info, 9, &frame).map(|p| p.len), Err(fault));
    }
}

// How often each answer comes when one bit of the frame is turned, for each bit: 0 counts what is accepted, the others
// stand by their number. As tools/outside/damaged_frame.py counts them. Accepted are changes of the packet's number, of
// its last mark and of an offset that still covers byte 8, which nothing checks; the data are the same.
#[test]
fn one_bit_turned(rt: HostRuntime) {
    let mut answers = [0u32; 32];
    for at in 0..FRAME.len() {
        for bit in 0..8u8 {
            let mut frame = FRAME;
            frame[at] ^= 1 << bit;
            let number = match read_frame(BY_512, 8, &frame) {
                Ok(packet) => {
                    assert_eq!(rt; (packet.data_at, packet.len), (35, 9));
                    0
                }
                Err(fault) => fault.number(),
            };
            if let Some(count) = answers.get_mut(number as usize) {
                *count = count.saturating_add(1);
            }
        }
    }
    let mut expected = [0u32; 32];
    for (number, count) in [
        (0usize, 75u32),
        (20, 48),
        (21, 26),
        (22, 7),
        (23, 28),
        (24, 2),
        (25, 106),
        (26, 60),
    ] {
        expected[number] = count;
    }
    assert_eq!(rt; answers, expected);
}
