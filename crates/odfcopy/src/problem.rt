//! Why nothing was copied.
ghost use Rattle.std.specs.Prelude.{◌≡◌};
ghost use Rattle.odfcopy.specs.declared.problem.Problem.TheVariants.{NoMemory, Refused};

use carrier::fault::CarrierFault;
use std::alloc::AllocError;
use thiserror::Error;

/// Why nothing was copied.
// `odfpick` has an enum of its own: what can go wrong and what is said of it differ.
#[derive(Debug, Drop, Error)]
pub enum Problem {
    #[error("usage: odfcopy FROM IN TO OUT, where FROM and TO are disk, 1200 or 4800")]
    Words,
    #[error("no make is called {0}: the makes are disk, 1200 and 4800")]
    UnknownMake(String),
    #[error("cannot read {0}")]
    NotRead(String),
    #[error("cannot write {0}")]
    NotWritten(String),
    #[error("out of memory")]
    NoMemory,
    #[error(transparent)]
    Refused(CarrierFault),
}

// By hand, since clauses name the problem that `?` makes of a fault.
impl From<CarrierFault> for Problem {
    ghost from_gives = { λ e r. r ≡ Refused e };

    fn from(fault: CarrierFault) -> Self {
        Problem::Refused(fault)
    }
}

impl From<AllocError> for Problem {
    ghost from_gives = { λ e r. r ≡ NoMemory };

    fn from(_: AllocError) -> Self {
        Problem::NoMemory
    }
}
