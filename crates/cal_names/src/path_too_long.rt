//! The refusal of a path whose file name would be too long.

use thiserror::Error;

/// The file name of the path would have more than 255 bytes.
#[derive(Debug, Clone, Copy, PartialEq, Eq, Error)]
#[error("PathTooLong")]
pub struct PathTooLong;
