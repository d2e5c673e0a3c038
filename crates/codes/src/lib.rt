// Erasure codes: each names its field and its generator matrix, of which any data_units rows have an inverse.
#![tactic(auto)]

mod code;
mod fault;
mod rs;
mod xor;

pub use code::Code;
pub use fault::GeneratorFault;
pub use rs::Rs;
pub use xor::Xor;
