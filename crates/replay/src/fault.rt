// Why a question has no answer, or the program none.
use codes::GeneratorFault;
use matrix::MatrixFault;
use policy::PolicyFault;
use std::alloc::AllocError;
use std::io;
use std::num::ParseIntError;
use stripe::StripeFault;
use thiserror::Error;

#[derive(Clone, Copy, Debug, Error)]
pub(crate) enum Fault {
    #[error("refuse {}", .0.number())]
    Policy(#[from] PolicyFault),
    #[error("refuse {}", .0.number())]
    Generator(#[from] GeneratorFault),
    #[error("refuse {}", .0.number())]
    Matrix(#[from] MatrixFault),
    #[error("refuse {}", .0.number())]
    Stripe(#[from] StripeFault),
    // a line has another form than its file's head says
    #[error("a line has another form")]
    Form,
    #[error("there is no memory for it")]
    Memory(#[from(alloc)] AllocError),
    #[error("a file cannot be read or written")]
    File(#[from] io::Error),
    #[error("an answer is not the one expected")]
    Wrong,
}

impl Fault {
    // The library refuses what it was asked; each other fault is the line's or the program's.
    pub(crate) fn is_refusal(self) -> bool {
        matches!(
            self,
            Fault::Policy(_) | Fault::Generator(_) | Fault::Matrix(_) | Fault::Stripe(_)
        )
    }
}

// Stays: (d) a derive would want a second variant for a line of another form.
impl From<ParseIntError> for Fault {
    fn from(_e: ParseIntError) -> Fault {
        Fault::Form
    }
}
