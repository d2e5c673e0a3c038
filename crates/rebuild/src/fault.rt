// Why a block is not put together again.
ghost use Rattle.std.specs.Prelude.{◌≡◌, IsSome, Some};
ghost use Rattle.rebuild.specs.Faults.{number_of, fault_in_row};
ghost use Rattle.rebuild.specs.declared.fault.RebuildFault.TheVariants.{Memory};

use std::alloc::AllocError;
use stripe::StripeFault;
use thiserror::Error;

#[derive(Clone, Copy, PartialEq, Eq, Debug, Error)]
pub enum RebuildFault {
    #[error("the block is longer than 2^40 bytes")]
    Block,
    // fewer cells of a row than data units are there
    #[error("row {row} has only {cells} cells")]
    TooFew { row: u64, cells: usize },
    #[error("row {row} lacks a data cell, and the old codec makes none again")]
    Legacy { row: u64 },
    #[error("there is no memory for it")]
    Memory,
}

impl RebuildFault {
    // Stays: (d) an enum of which a case holds a value is not cast to a number.
    pub fn number(self) -> u8
        ensures { result ≡ number_of self }
    {
        match self {
            RebuildFault::Block => 3,
            RebuildFault::TooFew { row: _, cells: _ } => 7,
            RebuildFault::Legacy { row: _ } => 8,
            RebuildFault::Memory => 9,
        }
    }

    // Why the block is refused where a row of it is, for the cells that are there.
    pub(crate) fn of_row(row: u64, fault: StripeFault) -> RebuildFault
        requires for_its_cells { IsSome (fault_in_row row fault) }
        ensures { fault_in_row row fault ≡ Some result }
    {
        match fault {
            StripeFault::TooFew { cells } => RebuildFault::TooFew { row, cells },
            StripeFault::Legacy => RebuildFault::Legacy { row },
            StripeFault::Short | StripeFault::Codec => unreachable!(),
        }
    }
}

// Stays: (d) a derived `From` has no contract, and what `rebuild` promises names this refusal.
impl From<AllocError> for RebuildFault {
    ghost from_gives = { λ _ r. r ≡ Memory };

    fn from(_e: AllocError) -> RebuildFault {
        RebuildFault::Memory
    }
}
