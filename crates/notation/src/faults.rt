// What can go wrong, though the input is good.
ghost use Rattle.std.specs.Prelude.{◌≡◌, Some};
ghost use Rattle.notation.specs.declared.faults.Fault.TheVariants.{Memory};
ghost use Rattle.notation.specs.Faults.{fault_text};

use std::alloc::{AllocError, AllocFailed};
use std::{fmt, io};

// Why a rehearsal can't go on, though its script is good.
#[derive(Clone, Copy, Debug, PartialEq, Eq)]
pub enum Fault {
    // there is no memory
    Memory,
    // a side has written 4,294,967,295 pages
    TooLong,
}

impl fmt::Display for Fault {
    ghost output = { λ f. Some (fault_text f) };

    fn fmt<W: fmt::Write>(&self, f: &mut fmt::Formatter<W>) -> fmt::Result {
        f.write_str(match self {
            Fault::Memory => "there is no memory left",
            Fault::TooLong => "the script is too long",
        })
    }
}

impl From<AllocError> for Fault {
    ghost from_gives = { λ _ r. r ≡ Memory };

    fn from(_e: AllocError) -> Fault {
        Fault::Memory
    }
}

impl<T: Drop> From<AllocFailed<T>> for Fault {
    ghost from_gives = { λ _ r. r ≡ Memory };

    fn from(_e: AllocFailed<T>) -> Fault {
        Fault::Memory
    }
}

// For what is written to a Vec, which has no error but that there is no memory; no step of a rehearsal writes anywhere else.
impl From<io::Error> for Fault {
    ghost from_gives = { λ _ r. r ≡ Memory };

    fn from(_e: io::Error) -> Fault {
        Fault::Memory
    }
}
