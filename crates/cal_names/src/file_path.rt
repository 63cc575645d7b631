//! The path of a file: the path of its directory and its file name.
ghost use Rattle.std.specs.Prelude.{◌≡◌, ◌≤◌, ◌↔◌, length, IsSome, IfSome};
ghost use Rattle.cal_names.specs.FilePath.{IsFilePath, file_path_of, separator, path_part, file_name_part, file_name_start};

use crate::bounded_bytes::BoundedBytes;
use crate::file_name::FileName;
use crate::path::Path;
use std::marker::Model;

const MAX_LEN: usize = 1024;

/// The path of a file: a path, `/` unless the path is empty or `/`, and a file name, so at most
/// 1024 bytes. Contracts see the list of its bytes. Equality and order are those of the bytes.
#[derive(Clone, Copy, Debug, PartialEq, Eq, PartialOrd, Ord)]
pub struct FilePath {
    /// The bytes, which are a path and a file name.
    bytes: BoundedBytes<MAX_LEN>,
}

impl Model for FilePath {
    ghost use Rattle.std.specs.Prelude.{ℕ, List};
    ghost use Rattle.cal_names.specs.FilePath.{IsFilePath};

    ghost Value = { List ℕ };

    ghost view = { λ a. a.bytes };

    ghost invariant = { λ a. IsFilePath a.bytes };

    ghost inverse = { λ v. record { bytes = v } };
}

impl FilePath {
    /// The file path of these bytes, where they are one.
    pub fn new(value: &[u8]) -> Option<Self>
        ensures rule { IsSome result ↔ IsFilePath value.now }
        ensures bytes { IfSome result (λ path. path ≡ value.now) }
    {
        let path = Path::new(path_of(value))?;
        let file = FileName::new(file_name_of(value))?;
        let file_path = Self::from_parts(&path, &file);
        // A path `/` after which another `/` stands is the one that isn't given back.
        if file_path.as_bytes() == value {
            Some(file_path)
        } else {
            None
        }
    }

    /// The file path of this file name at this path.
    pub fn from_parts(path: &Path, file: &FileName) -> FilePath
        ensures rule { IsFilePath result }
        ensures bytes { result ≡ file_path_of path.now file.now }
        ensures path { path_part result ≡ path.now }
        ensures file_name { file_name_part result ≡ file.now }
    {
        let mut bytes = BoundedBytes::new(path.as_bytes());
        bytes.append(separator(path.as_bytes()));
        bytes.append(file.as_bytes());
        FilePath { bytes }
    }

    /// The path at which the file lies.
    pub fn path(&self) -> Path
        ensures path { result ≡ path_part self.now }
        ensures back { file_path_of (path_part self.now) (file_name_part self.now) ≡ self.now }
    {
        Path::new(path_of(self.as_bytes())).unwrap()
    }

    /// The file's name.
    pub fn file_name(&self) -> FileName
        ensures file_name { result ≡ file_name_part self.now }
        ensures back { file_path_of (path_part self.now) (file_name_part self.now) ≡ self.now }
    {
        FileName::new(file_name_of(self.as_bytes())).unwrap()
    }

    /// The bytes of the file path.
    pub fn as_bytes(&self) -> &[u8]
        ensures bytes { result.now ≡ self.now }
        ensures rule { IsFilePath self.now }
    {
        self.bytes.as_bytes()
    }
}

/// What stands between this path and a file name.
fn separator(path: &[u8]) -> &'static [u8]
    ensures { result.now ≡ separator path.now }
{
    match path {
        [] | [b'/'] => b"",
        _ => b"/",
    }
}

/// What stands after the last `/`.
fn file_name_of(value: &[u8]) -> &[u8]
    ensures { result.now ≡ file_name_part value.now }
{
    &value[file_name_start(value)..]
}

/// What stands before the last `/`, and this `/` where it comes first.
fn path_of(value: &[u8]) -> &[u8]
    ensures { result.now ≡ path_part value.now }
{
    let start = file_name_start(value);
    if start <= 1 {
        &value[..start]
    } else {
        &value[..start - 1]
    }
}

/// The index after the last `/`, or 0 where there is none.
fn file_name_start(value: &[u8]) -> usize
    ensures within { result ≤ length value.now }
    ensures value { result ≡ file_name_start value.now }
{
    let mut start = value.len();
    while start > 0 && value[start - 1] != b'/' {
        start -= 1;
    }
    start
}
