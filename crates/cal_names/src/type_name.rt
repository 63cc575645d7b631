//! The name of a stored type.
ghost use Rattle.std.specs.Prelude.{◌≡◌, ◌↔◌, IsSome, IfSome};
ghost use Rattle.cal_names.specs.TypeName.{IsTypeName};

use crate::bounded_bytes::BoundedBytes;
use std::marker::Model;

const MAX_LEN: usize = 255;

/// The name of a type: any bytes, at most 255. Contracts see the list of its bytes. Equality and
/// order are those of the bytes.
#[derive(Clone, Copy, Debug, PartialEq, Eq, PartialOrd, Ord)]
pub struct TypeName {
    /// The bytes, at most 255.
    bytes: BoundedBytes<MAX_LEN>,
}

impl Model for TypeName {
    ghost use Rattle.std.specs.Prelude.{ℕ, List};
    ghost use Rattle.cal_names.specs.TypeName.{IsTypeName};

    ghost Value = { List ℕ };

    ghost view = { λ a. a.bytes };

    ghost invariant = { λ a. IsTypeName a.bytes };

    ghost inverse = { λ v. record { bytes = v } };
}

impl TypeName {
    /// The type name of these bytes, where they are at most 255.
    pub fn new(value: &[u8]) -> Option<Self>
        ensures rule { IsSome result ↔ IsTypeName value.now }
        ensures bytes { IfSome result (λ name. name ≡ value.now) }
    {
        if value.len() <= MAX_LEN {
            Some(TypeName {
                bytes: BoundedBytes::new(value),
            })
        } else {
            None
        }
    }

    /// The bytes of the type name.
    pub fn as_bytes(&self) -> &[u8]
        ensures bytes { result.now ≡ self.now }
        ensures rule { IsTypeName self.now }
    {
        self.bytes.as_bytes()
    }
}
