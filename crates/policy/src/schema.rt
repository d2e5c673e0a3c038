// A scheme: by which code parity is made, how many data and parity cells a row has, and how many bytes a cell has.
ghost use Rattle.std.specs.Prelude.{◌≡◌, ◌+◌, ◌≤◌};
ghost use Rattle.policy.specs.declared.codec.Codec.TheVariants.{Xor};

use crate::codec::Codec;

#[derive(Clone, Copy, PartialEq, Eq, Debug)]
pub struct EcSchema {
    pub codec: Codec,
    pub data_units: usize,
    pub parity_units: usize,
    pub cell_size: usize,
    ghost some_data: { 1 ≤ data_units },
    ghost some_parity: { 1 ≤ parity_units },
    ghost narrow: { data_units + parity_units ≤ 16 },
    ghost some_bytes: { 1 ≤ cell_size },
    ghost small: { cell_size ≤ 1048576 },
    ghost xor_alone: { codec ≡ Xor → parity_units ≡ 1 },
}

impl EcSchema {
    // How many cells a row has, data and parity.
    pub fn units(self) -> usize
        ensures { result ≡ self.data_units + self.parity_units }
    {
        self.data_units + self.parity_units
    }
}
