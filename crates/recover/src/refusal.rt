// Why the program refuses, by number and in words.
ghost use Rattle.std.specs.Prelude.{◌≡◌};
ghost use Rattle.recover.specs.Refusals.{number_of};

use policy::PolicyFault;
use rebuild::RebuildFault;
use std::alloc::AllocError;
use std::io;
use thiserror::Error;

#[derive(Clone, Copy, Debug, Error)]
pub(crate) enum Refusal {
    #[error("the command line has another form: see recover --help")]
    Usage,
    #[error(transparent)]
    Policy(#[from] PolicyFault),
    #[error(transparent)]
    Rebuild(#[from] RebuildFault),
    #[error("{}", RebuildFault::Memory)]
    Memory(#[from(alloc)] AllocError),
    #[error("a file or folder cannot be read or written")]
    File(#[from] io::Error),
}

impl Refusal {
    // Stays: (d) most of the numbers are the library's own, so no discriminants would give them.
    pub(crate) fn number(self) -> u8
        ensures { result ≡ number_of self }
    {
        match self {
            Refusal::Usage => 40,
            Refusal::Policy(fault) => fault.number(),
            Refusal::Rebuild(fault) => fault.number(),
            Refusal::Memory(_) => RebuildFault::Memory.number(),
            Refusal::File(_) => 30,
        }
    }
}
