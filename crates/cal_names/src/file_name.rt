//! The name of a file.
ghost use Rattle.std.specs.Prelude.{◌≡◌, ◌↔◌, ◌++◌, IsTrue, IsSome, IfSome};
ghost use Rattle.cal_names.specs.FileName.{IsFileName, is_file_name_byte, as_file_name};

use crate::bounded_bytes::BoundedBytes;
use std::marker::Model;

const MAX_LEN: usize = 255;

/// The name of a file: 1 to 255 bytes, each an ASCII letter or digit, `_`, `-` or `.`, and neither
/// `.` nor `..`. Contracts see the list of its bytes. Equality and order are those of the bytes.
#[derive(Clone, Copy, Debug, PartialEq, Eq, PartialOrd, Ord)]
pub struct FileName {
    /// The bytes, which are a file name.
    bytes: BoundedBytes<MAX_LEN>,
}

impl Model for FileName {
    ghost use Rattle.std.specs.Prelude.{ℕ, List};
    ghost use Rattle.cal_names.specs.FileName.{IsFileName};

    ghost Value = { List ℕ };

    ghost view = { λ a. a.bytes };

    ghost invariant = { λ a. IsFileName a.bytes };

    ghost inverse = { λ v. record { bytes = v } };
}

impl FileName {
    /// The file name of these bytes, where they are one.
    #[tactic(auto, using(crate::specs::FileName::as_file_name_yes, crate::specs::FileName::as_file_name_no))]
    pub fn new(value: &[u8]) -> Option<Self>
        ensures rule { IsSome result ↔ IsFileName value.now }
        ensures bytes { IfSome result (λ name. name ≡ value.now) }
        ensures value { result ≡ as_file_name value.now }
    {
        if is_file_name(value) {
            Some(FileName {
                bytes: BoundedBytes::new(value),
            })
        } else {
            None
        }
    }

    /// This file name with more bytes after it, where that is a file name: where the bytes are bytes of file names and
    /// all are at most 255.
    #[tactic(auto, using(crate::specs::FileName::as_file_name_long))]
    pub fn joined(&self, more: &[u8]) -> Option<Self>
        ensures value { result ≡ as_file_name (self.now ++ more.now) }
    {
        let mut bytes = self.bytes;
        if more.len() > MAX_LEN - bytes.as_bytes().len() {
            return None;
        }
        bytes.append(more);
        FileName::new(bytes.as_bytes())
    }

    /// The bytes of the file name.
    pub fn as_bytes(&self) -> &[u8]
        ensures bytes { result.now ≡ self.now }
        ensures rule { IsFileName self.now }
    {
        self.bytes.as_bytes()
    }
}

/// Whether these bytes are a file name.
pub(crate) fn is_file_name(value: &[u8]) -> bool
    ensures { IsTrue result ↔ IsFileName value.now }
{
    !value.is_empty()
        && value.len() <= MAX_LEN
        && value != b".".as_slice()
        && value != b"..".as_slice()
        && value.iter().all(|byte| is_file_name_byte(*byte))
}

fn is_file_name_byte(byte: u8) -> bool
    ensures { result ≡ is_file_name_byte byte }
{
    byte.is_ascii_alphanumeric() || byte == b'_' || byte == b'-' || byte == b'.'
}
