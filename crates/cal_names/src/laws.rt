//! What holds of the names of stored types. The function does nothing.

ghost use Rattle.std.specs.Prelude.{◌≡◌, codes};

use crate::named_type::NamedType;

/// The name of `i64` as a stored type.
pub fn the_name_of_i64()
    ensures name { ⟦<i64 as NamedType>⟧.name ≡ codes "i64" }
{}
