//! Why a ring takes no value.

use thiserror::Error;

/// Why a value isn't taken. The ring is as before.
#[derive(Clone, Copy, PartialEq, Eq, Debug, Error)]
pub enum PushRefusal {
    /// As many values wait as may.
    #[error("PushRefusal::Full")]
    Full,
    /// 2^64 - 1 values were taken before, and no position is left.
    #[error("PushRefusal::PositionsUsedUp")]
    PositionsUsedUp,
}
