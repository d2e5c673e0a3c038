// What a register becomes as bytes are fed to it, by a table of what each byte becomes when its eight bits leave.
ghost use Rattle.std.specs.Prelude.{◌≡◌, ℕ, bit_xor};
ghost use Rattle.checksum.specs.Sums.{generator, IsTableOf};
ghost use Rattle.crcmath.specs.Registers.{steps, fed};

use crate::kind::Checksum;

// What all bytes become, from what the bits of a byte become, the lowest first: each bit is added to the bytes before it.
macro_rules! table {
    ($($byte:expr),*;) => {
        [$($byte),*]
    };
    ($($byte:expr),*; $bit:expr $(, $bits:expr)*) => {
        table!($($byte,)* $($byte ^ $bit),*; $($bits),*)
    };
}

// By the polynomial of IEEE 802.3: the highest bit becomes that polynomial with its bits in reverse order.
static CRC32: [u32; 256] =
    table!(0; 0x7707_3096, 0xEE0E_612C, 0x076D_C419, 0x0EDB_8832, 0x1DB7_1064, 0x3B6E_20C8, 0x76DC_4190, 0xEDB8_8320);

// By the polynomial of RFC 3720.
static CRC32C: [u32; 256] =
    table!(0; 0xF26B_8303, 0xE13B_70F7, 0xC79A_971F, 0x8AD9_58CF, 0x105E_C76F, 0x20BD_8EDE, 0x417B_1DBC, 0x82F6_3B78);

// The register after one more byte, by the table of a generator.
#[tactic(auto, using(crcmath::proofs::Bytes::byte_fed))]
fn feed_byte(table: &[u32; 256], register: u32, byte: u8) -> u32
    ensures { (g : ℕ) → IsTableOf g table.now → result ≡ steps g 8 (bit_xor register byte) }
{
    let low = (register ^ u32::from(byte)) % 256;
    (register >> 8) ^ table[low as usize]
}

impl Checksum {
    // What each byte becomes when its eight bits leave.
    fn table(self) -> &'static [u32; 256]
        ensures { IsTableOf (generator self) result.now }
    {
        match self {
            Checksum::Crc32 => &CRC32,
            Checksum::Crc32c => &CRC32C,
        }
    }

    // The register after more bytes.
    #[tactic(auto, using(crate::proofs::Taken::fed_is))]
    pub(crate) fn feed(self, register: u32, bytes: &[u8]) -> u32
        ensures { result ≡ fed (generator self) register bytes.now }
    {
        let table = self.table();
        bytes.iter().fold(register, |register, byte| feed_byte(table, register, *byte))
    }
}
