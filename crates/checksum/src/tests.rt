// The published checksums, of a whole slice and of a slice in two parts.
use crate::kind::Checksum;
use crate::running::Running;
use std::array;

// Stays: the kind is handed on, and picks no step here.
fn in_parts(kind: Checksum, bytes: &[u8]) -> u32 {
    let half = bytes.len() / 2;
    let mut running = Running::new(kind);
    running.add(&bytes[0..half]);
    running.add(&bytes[half..]);
    running.finish()
}

#[test]
fn published(rt: HostRuntime) {
    let rising: [u8; 32] = array::from_fn(|i| i as u8);
    let mut falling = rising;
    falling.reverse();
    let samples: [(Checksum, &[u8], u32); 6] = [
        (Checksum::Crc32, b"123456789", 0xCBF4_3926),
        (Checksum::Crc32c, b"123456789", 0xE306_9283),
        (Checksum::Crc32c, &[0; 32], 0x8A91_36AA),
        (Checksum::Crc32c, &[0xFF; 32], 0x62A8_AB43),
        (Checksum::Crc32c, &rising, 0x46DD_794E),
        (Checksum::Crc32c, &falling, 0x113F_DB5C),
    ];
    for (kind, bytes, sum) in samples {
        assert_eq!(rt; kind.of(bytes), sum);
        assert_eq!(rt; in_parts(kind, bytes), sum);
    }
}
