//! The path that stands for a name, and the name that a file name stands for.
ghost use Rattle.std.specs.Prelude.{◌≡◌, ◌≤◌, ◌↔◌, ℕ, List, length, Some, Ok, IsOk, IfOk};
ghost use Rattle.cal_names.specs.FilePath.{IsFilePath};
ghost use Rattle.cal_names.specs.ConceptSettings.{ConceptSettings, settings_of, file_name_for, file_path_for, type_part, extracted_name, extracted_name_at};

use crate::bounded_bytes::BoundedBytes;
use crate::file_name::FileName;
use crate::file_path::FilePath;
use crate::path_parts::PathParts;
use crate::path_too_long::PathTooLong;
use crate::type_hash::type_hash;
use crate::type_name::TypeName;

/// The path that stands for `name`.
pub(crate) fn path_of_name(
    parts: &PathParts,
    type_name: Option<TypeName>,
    name: &FileName,
) -> Result<FilePath, PathTooLong>
    ensures fits { let settings : ConceptSettings = settings_of parts.now type_name in
        IsOk result ↔ (length (file_name_for settings name.now) ≤ 255) }
    ensures rule { IfOk result IsFilePath }
    ensures path { let settings : ConceptSettings = settings_of parts.now type_name in
        IfOk result (λ path. path ≡ file_path_for settings name.now) }
    ensures inverse { let settings : ConceptSettings = settings_of parts.now type_name in
        (other : List ℕ) → IsFilePath other →
        (extracted_name_at settings other ≡ Some name.now) ↔ (result ≡ Ok other) }
{
    let between = type_part(type_name);
    let between = between.as_bytes();
    let (prefix, suffix) = (parts.prefix.as_bytes(), parts.suffix.as_bytes());
    let name = name.as_bytes();
    if prefix.len() + between.len() + name.len() + suffix.len() > 255 {
        return Err(PathTooLong);
    }
    let mut bytes = BoundedBytes::<255>::new(prefix);
    bytes.append(between);
    bytes.append(name);
    bytes.append(suffix);
    let file_name = FileName::new(bytes.as_bytes()).unwrap();
    Ok(FilePath::from_parts(&parts.path_hint, &file_name))
}

/// The name that `file_name` stands for.
pub(crate) fn name_of_file(
    parts: &PathParts,
    type_name: Option<TypeName>,
    file_name: &FileName,
) -> Option<FileName>
    ensures { let settings : ConceptSettings = settings_of parts.now type_name in
        result ≡ extracted_name settings file_name.now }
{
    let between = type_part(type_name);
    let rest = file_name.as_bytes().strip_prefix(parts.prefix.as_bytes())?;
    let rest = rest.strip_prefix(between.as_bytes())?;
    FileName::new(rest.strip_suffix(parts.suffix.as_bytes())?)
}

/// What stands between the prefix and the name.
fn type_part(type_name: Option<TypeName>) -> BoundedBytes<28>
    ensures { result ≡ type_part type_name }
{
    match type_name {
        None => BoundedBytes::new(b""),
        Some(name) => {
            let mut bytes = BoundedBytes::new(&type_hash(&name));
            bytes.append(b"_");
            bytes
        }
    }
}
