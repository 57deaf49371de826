//! Why a script was not played to its end.

use band_base::{SinkError, SourceFailed};
use std::alloc::AllocError;
use thiserror::Error;

/// Why a script was not played to its end.
#[derive(Debug, Drop, Error)]
pub enum PlayFault {
    /// The line of this number, counted from 1, stands for no call, or isn't ended.
    #[error("malformed line {0}")]
    Malformed(u64),
    /// The script has more bytes than the limit.
    #[error("too long")]
    TooLong,
    /// The source failed.
    #[error("read fault")]
    Read,
    /// The sink failed.
    #[error("write fault")]
    Write,
    /// There was no memory.
    #[error("no memory")]
    NoMemory,
}

impl From<AllocError> for PlayFault {
    ghost use Rattle.std.specs.Prelude.{◌≡◌};
    ghost use Rattle.band_play.specs.declared.fault.PlayFault.TheVariants.{NoMemory};

    ghost from_gives = { λ _ fault. fault ≡ NoMemory };

    fn from(_error: AllocError) -> PlayFault {
        PlayFault::NoMemory
    }
}

impl From<SourceFailed> for PlayFault {
    ghost use Rattle.std.specs.Prelude.{◌≡◌};
    ghost use Rattle.band_play.specs.declared.fault.PlayFault.TheVariants.{Read};

    ghost from_gives = { λ _ fault. fault ≡ Read };

    fn from(_error: SourceFailed) -> PlayFault {
        PlayFault::Read
    }
}

impl From<SinkError> for PlayFault {
    ghost use Rattle.std.specs.Prelude.{◌≡◌};
    ghost use Rattle.band_play.specs.Faults.{fault_of};

    ghost from_gives = { λ error fault. fault ≡ fault_of error };

    fn from(error: SinkError) -> PlayFault {
        match error {
            SinkError::Failed => PlayFault::Write,
            SinkError::NoMemory => PlayFault::NoMemory,
        }
    }
}
