//! Why no record is printed.
use odf::fault::FileFault;
use std::alloc::AllocError;
use thiserror::Error;

/// Why no record is printed.
// `odfcopy` has an enum of its own: what can go wrong and what is said of it differ.
#[derive(Debug, Drop, Error)]
pub enum Problem {
    #[error("usage: odfpick MAKE KIND K < FILE, where MAKE is disk, 1200 or 4800 and KIND is orbit, ramp or clock")]
    Words,
    #[error("no make is called {0}: the makes are disk, 1200 and 4800")]
    UnknownMake(String),
    #[error("no kind is called {0}: the kinds are orbit, ramp and clock")]
    UnknownKind(String),
    #[error("{0} is not the number of a cell")]
    NoCell(String),
    #[error("cannot read standard input")]
    NotRead,
    #[error("out of memory")]
    NoMemory(#[from] AllocError),
    #[error(transparent)]
    Refused(#[from] FileFault),
}
