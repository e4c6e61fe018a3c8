use kts_base::NoMemory;
use std::alloc::{AllocError, AllocFailed};
use std::{fmt, io};

/// Why the cases of a file couldn't be gone through.
#[derive(Debug, Drop)]
pub enum CaseFault {
    /// At this place stands no block, or none that may stand there.
    Broken { at: usize },
    /// Memory was refused.
    NoMemory,
    /// The file couldn't be read, or a line couldn't be written.
    Io(io::Error),
}

impl fmt::Display for CaseFault {
    fn fmt<W: fmt::Write>(&self, f: &mut fmt::Formatter<W>) -> fmt::Result {
        match self {
            CaseFault::Broken { at } => write!(f, "broken at byte {at}"),
            CaseFault::NoMemory => write!(f, "no memory"),
            CaseFault::Io(error) => write!(f, "{error}"),
        }
    }
}

impl From<NoMemory> for CaseFault {
    fn from(_refused: NoMemory) -> CaseFault {
        CaseFault::NoMemory
    }
}

impl From<AllocError> for CaseFault {
    fn from(_refused: AllocError) -> CaseFault {
        CaseFault::NoMemory
    }
}

impl<T: Drop> From<AllocFailed<T>> for CaseFault {
    fn from(_refused: AllocFailed<T>) -> CaseFault {
        CaseFault::NoMemory
    }
}

impl From<io::Error> for CaseFault {
    fn from(error: io::Error) -> CaseFault {
        CaseFault::Io(error)
    }
}
