// A block and the scheme that it is dealt out under.
use policy::EcSchema;

// A block of `len` bytes under a scheme: any length goes with any scheme.
#[derive(Clone, Copy, PartialEq, Eq, Debug)]
pub struct StripedBlock {
    pub schema: EcSchema,
    pub len: u64,
}
