//! Types that can be stored, by the name that tells them apart in the paths of their storages.
ghost use Rattle.std.specs.Prelude.{◌≡◌, ℕ, List, codes};

use crate::type_name::TypeName;

/// A type with a name, by which storages tell it apart from other stored types.
pub trait NamedType {
    // The bytes of the name.
    ghost name: { List ℕ };

    /// The name of the type.
    fn type_name() -> TypeName
        ensures { result ≡ name };
}

impl NamedType for i64 {
    ghost name = { codes "i64" };

    fn type_name() -> TypeName {
        TypeName::new(b"i64").unwrap()
    }
}
