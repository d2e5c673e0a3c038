// Rows of cells under a code: parity made from the data cells, and missing data cells made again from those that are there.
#![tactic(auto)]

mod fault;
mod missing;
mod parity;
mod select;
mod there;

pub use fault::StripeFault;
pub use missing::recover;
pub use parity::encode;
