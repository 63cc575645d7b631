//! What a configuration of any kind of concept holds to make a path of a name.

use crate::file_name::FileName;
use crate::path::Path;

/// What stands around a name in its path, whatever is stored.
#[derive(Clone, Copy, Debug, PartialEq, Eq)]
pub struct PathParts {
    /// What the file name begins with.
    pub prefix: FileName,
    /// What the file name ends with.
    pub suffix: FileName,
    /// The path of the directory.
    pub path_hint: Path,
}
