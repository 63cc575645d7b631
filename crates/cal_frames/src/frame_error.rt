//! Why frames aren't shown.

use cal_transport::{CreateCause, LoanError, OpenError, Refusal};
use std::alloc::AllocError;
use thiserror::Error;

/// Why frames weren't shown.
#[derive(Clone, Copy, Debug, PartialEq, Eq, Error)]
pub enum FrameError {
    /// No transport can be made with the settings.
    #[error("no transport can be made: {0:?}")]
    Create(CreateCause),
    /// The transport refused a call.
    #[error("the transport refused: {0:?}")]
    Refused(#[from] Refusal),
    /// A chunk that was received doesn't begin with a length.
    #[error("a chunk without a length")]
    NoLength,
    /// Memory ran out.
    #[error("out of memory")]
    NoMemory(#[from(alloc)] AllocError),
}

impl From<OpenError> for FrameError {
    ghost use Rattle.std.specs.Prelude.{◌≡◌};
    ghost use Rattle.cal_frames.specs.Errors.{error_of_open};

    ghost from_gives = { λ error why. why ≡ error_of_open error };

    fn from(error: OpenError) -> FrameError {
        match error {
            OpenError::Create(cause) => FrameError::Create(cause),
            OpenError::NoMemory => FrameError::NoMemory(AllocError),
        }
    }
}

impl From<LoanError> for FrameError {
    fn from(error: LoanError) -> FrameError {
        match error {
            LoanError::Refused(refusal) => FrameError::Refused(refusal),
            LoanError::NoMemory => FrameError::NoMemory(AllocError),
        }
    }
}
