// Responses and frames as they are written at the front of a buffer.
#![tactic(auto)]

mod bytes;
mod faults;
mod frame;
mod lengths;
mod response;

pub use faults::FrameFault;
pub use frame::write_frame;
pub use response::write_response;
