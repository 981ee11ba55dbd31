//! Why a session could not be made or written.

ghost use Rattle.std.specs.Prelude.{◌≡◌};
ghost use Rattle.mt_sessionview.specs.Faults.{number_of};
ghost use Rattle.mt_sessionview.specs.declared.fault.SessionFault.TheVariants.{Memory};

use std::alloc::{AllocError, AllocFailed};
use thiserror::Error;

/// Why a session could not be made or written.
#[derive(Clone, Copy, Debug, PartialEq, Eq, Error)]
pub enum SessionFault {
    #[error("out of memory")]
    Memory,
    #[error("the text could not be written")]
    Write,
}

impl SessionFault {
    /// The refusal's number: 0 or 37.
    pub fn number(&self) -> u8
        ensures { result ≡ number_of self.now }
    {
        match self {
            SessionFault::Memory => 0,
            SessionFault::Write => 37,
        }
    }
}

impl From<AllocError> for SessionFault {
    ghost from_gives = { λ _ e. e ≡ Memory };

    fn from(_e: AllocError) -> SessionFault {
        SessionFault::Memory
    }
}

impl<T: Drop> From<AllocFailed<T>> for SessionFault {
    ghost from_gives = { λ _ e. e ≡ Memory };

    fn from(_e: AllocFailed<T>) -> SessionFault {
        SessionFault::Memory
    }
}
