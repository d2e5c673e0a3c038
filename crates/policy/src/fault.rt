// Why a policy is refused.
ghost use Rattle.std.specs.Prelude.{◌≡◌};
ghost use Rattle.policy.specs.Faults.{number_of};

use thiserror::Error;

// Each with the number that the refusal goes by outside the library.
#[derive(Clone, Copy, PartialEq, Eq, Debug, Error)]
pub enum PolicyFault {
    #[error("the policy, its id or its codec is unknown")]
    Unknown = 1,
    #[error("the scheme breaks a limit")]
    Limit = 2,
}

impl PolicyFault {
    // Stays: a trait for the enums that number themselves would want a crate below them all, for this one line.
    pub fn number(self) -> u8
        ensures { result ≡ number_of self }
    {
        self as u8
    }
}
