//! The path of a directory.
ghost use Rattle.std.specs.Prelude.{◌≡◌, ◌↔◌, IsTrue, IsSome, IfSome};
ghost use Rattle.cal_names.specs.Path.{IsPath, AreJoinedFileNames, as_path};

use crate::bounded_bytes::BoundedBytes;
use crate::file_name::is_file_name;
use std::marker::Model;

const MAX_LEN: usize = 768;

/// The path of a directory, in at most 768 bytes: an optional `/`, and then any number of file
/// names with `/` between each two. Contracts see the list of its bytes. Equality and order are
/// those of the bytes.
#[derive(Clone, Copy, Debug, PartialEq, Eq, PartialOrd, Ord)]
pub struct Path {
    /// The bytes, which are a path.
    bytes: BoundedBytes<MAX_LEN>,
}

impl Model for Path {
    ghost use Rattle.std.specs.Prelude.{ℕ, List};
    ghost use Rattle.cal_names.specs.Path.{IsPath};

    ghost Value = { List ℕ };

    ghost view = { λ a. a.bytes };

    ghost invariant = { λ a. IsPath a.bytes };

    ghost inverse = { λ v. record { bytes = v } };
}

impl Path {
    /// The path of these bytes, where they are one.
    #[tactic(auto, using(crate::proofs::PathLemmas::as_path_yes, crate::proofs::PathLemmas::as_path_no))]
    pub fn new(value: &[u8]) -> Option<Self>
        ensures rule { IsSome result ↔ IsPath value.now }
        ensures bytes { IfSome result (λ path. path ≡ value.now) }
        ensures value { result ≡ as_path value.now }
    {
        if is_path(value) {
            Some(Path {
                bytes: BoundedBytes::new(value),
            })
        } else {
            None
        }
    }

    /// The bytes of the path.
    pub fn as_bytes(&self) -> &[u8]
        ensures bytes { result.now ≡ self.now }
        ensures rule { IsPath self.now }
    {
        self.bytes.as_bytes()
    }
}

/// Whether these bytes are a path.
fn is_path(value: &[u8]) -> bool
    ensures { IsTrue result ↔ IsPath value.now }
{
    value.len() <= MAX_LEN
        && match value.strip_prefix(b"/") {
            Some(rest) => are_joined_file_names(rest),
            None => are_joined_file_names(value),
        }
}

/// Whether these bytes are any number of file names with `/` between each two.
fn are_joined_file_names(value: &[u8]) -> bool
    ensures { IsTrue result ↔ AreJoinedFileNames value.now }
{
    value.is_empty() || value.split(|byte| *byte == b'/').all(is_file_name)
}
