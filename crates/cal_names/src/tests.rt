//! Worked examples through the public calls.

mod one_path;
mod storage_configuration;

use super::*;
use base64::engine::general_purpose::STANDARD;
use sha1::Sha1;
use std::alloc::Global;
use std::collections::BTreeSet;
use std::fmt::Display;
use std::process::Abort;
use std::test::Fail;

fn is_file_name(bytes: &[u8]) -> bool {
    FileName::new(bytes).is_some()
}

fn is_path(bytes: &[u8]) -> bool {
    Path::new(bytes).is_some()
}

fn is_file_path(bytes: &[u8]) -> bool {
    FilePath::new(bytes).is_some()
}

#[test]
fn file_names_at_their_limits(rt: HostRuntime) {
    let long = [b'a'; 256];
    assert!(rt; !is_file_name(b""));
    assert!(rt; !is_file_name(b"."));
    assert!(rt; !is_file_name(b".."));
    assert!(rt; is_file_name(b"..."));
    assert!(rt; is_file_name(b"a"));
    assert!(rt; is_file_name(&long[..255]));
    assert!(rt; !is_file_name(&long));
    for byte in 0..=255u8 {
        let allowed = b"ABCDEFGHIJKLMNOPQRSTUVWXYZabcdefghijklmnopqrstuvwxyz0123456789_-.".contains(
            &byte,
        );
        assert_eq!(rt; is_file_name(&[b'a', byte]), allowed, "at {byte}");
    }
}

#[test]
fn paths_at_their_limits(rt: HostRuntime) {
    let mut long = [b'a'; 769];
    long[0] = b'/';
    long[200] = b'/';
    long[400] = b'/';
    long[600] = b'/';
    assert!(rt; is_path(b""));
    assert!(rt; is_path(b"/"));
    assert!(rt; is_path(b"/tmp"));
    assert!(rt; is_path(b"a/b-c/d_e"));
    assert!(rt; !is_path(b"//"));
    assert!(rt; !is_path(b"/tmp/"));
    assert!(rt; !is_path(b"a//b"));
    assert!(rt; !is_path(b"/a/../b"));
    assert!(rt; !is_path(b"/a b"));
    assert!(rt; is_path(&long[..768]));
    assert!(rt; !is_path(&long));
    assert!(rt; !is_path(&[b'a'; 256]));
}

#[test]
fn file_paths_at_their_limits(rt: HostRuntime) {
    let mut long = [b'a'; 1025];
    long[0] = b'/';
    long[200] = b'/';
    long[400] = b'/';
    long[600] = b'/';
    long[768] = b'/';
    assert!(rt; is_file_path(b"a"));
    assert!(rt; is_file_path(b"/a"));
    assert!(rt; is_file_path(b"a/b"));
    assert!(rt; is_file_path(b"/a/b/c"));
    assert!(rt; !is_file_path(b""));
    assert!(rt; !is_file_path(b"/"));
    assert!(rt; !is_file_path(b"//a"));
    assert!(rt; !is_file_path(b"a/"));
    assert!(rt; !is_file_path(b"a/.."));
    assert!(rt; !is_file_path(b"../a"));
    assert!(rt; is_file_path(&long[..1024]));
    assert!(rt; !is_file_path(&long));
}

/// What a file name is with more bytes behind it.
fn joined(name: &[u8], more: &[u8]) -> Result<Option<FileName>, Fail> {
    let name = FileName::new(name).ok_or("a file name")?;
    Ok(name.joined(more))
}

#[test]
fn file_names_are_joined(rt: HostRuntime) -> Result<(), Fail> {
    assert!(rt; joined(b"mem", b"__0")? == FileName::new(b"mem__0"));
    assert!(rt; joined(b"mem", b"")? == FileName::new(b"mem"));
    assert!(rt; joined(b"a", b".")? == FileName::new(b"a."));
    assert!(rt; matches!(joined(b"mem", b"/")?, None));
    assert!(rt; is_file_name(b"mem__0") && is_file_name(b"mem") && is_file_name(b"a."));
    Ok(())
}

#[test]
fn file_names_are_joined_where_they_fit(rt: HostRuntime) -> Result<(), Fail> {
    let long = [b'a'; 253];
    assert!(rt; joined(b"mem", &long[..252])?.is_some() == true);
    assert!(rt; matches!(joined(b"mem", &long)?, None));
    Ok(())
}

#[test]
fn type_names_at_their_limits(rt: HostRuntime) -> Result<(), Fail> {
    let long = [0; 256];
    assert!(rt; TypeName::new(b"").is_some());
    assert!(rt; TypeName::new(&long[..255]).is_some());
    assert!(rt; TypeName::new(&long).is_none());
    let name = TypeName::new(&[0, 255, 128]).ok_or("three bytes")?;
    assert!(rt; name.as_bytes() == [0, 255, 128].as_slice());
    assert!(rt; i64::type_name().as_bytes() == b"i64".as_slice());
    Ok(())
}

/// A path with the file name of a storage behind it.
fn path_of_mem(path: &Path) -> Result<FilePath, Fail> {
    let file = FileName::new(b"mem.dyn").ok_or("a file name")?;
    Ok(FilePath::from_parts(path, &file))
}

/// A path and the file name of a storage are joined to this file path, which is parted into both again.
fn is_joined_and_parted(rt: &impl Abort, path: &[u8], joined: &[u8]) -> Result<(), Fail> {
    let path = Path::new(path).ok_or("a path")?;
    let file_path = path_of_mem(&path)?;
    assert!(rt; file_path.as_bytes() == joined);
    assert!(rt; file_path.path() == path);
    assert!(rt; file_path.file_name().as_bytes() == b"mem.dyn".as_slice());
    assert!(rt; FilePath::new(joined) == Some(file_path));
    Ok(())
}

#[test]
fn a_file_path_has_two_parts(rt: HostRuntime) -> Result<(), Fail> {
    is_joined_and_parted(&rt, b"", b"mem.dyn")?;
    is_joined_and_parted(&rt, b"/", b"/mem.dyn")?;
    is_joined_and_parted(&rt, b"a", b"a/mem.dyn")?;
    is_joined_and_parted(&rt, b"/tmp/b", b"/tmp/b/mem.dyn")
}

/// The names, each with a blank after it.
fn texts(alloc: Global, names: &BTreeSet<FileName>) -> Result<String, Fail> {
    let mut texts = String::new(alloc);
    for name in names {
        for byte in name.as_bytes() {
            texts.push(char::from(*byte))?;
        }
        texts.push(' ')?;
    }
    Ok(texts)
}

#[test]
fn names_are_ordered_by_bytes(rt: HostRuntime) -> Result<(), Fail> {
    let mut names = BTreeSet::new(rt.alloc());
    for text in ["b", "ab", "a", "B", "a-", "b"] {
        names.insert(FileName::new(text.as_bytes()).ok_or("a file name")?)?;
    }
    assert!(rt; texts(rt.alloc(), &names)?.as_str() == "B a a- ab b ");
    Ok(())
}

/// The SHA-1 of a text in base64 for file names: the plain one with `-` and `_` for `+` and `/`, and without `=`.
fn hash_of(alloc: Global, text: &[u8]) -> Result<String, Fail> {
    let plain = STANDARD.encode(alloc, &Sha1::digest(text))?;
    let mut hash = String::new(alloc);
    for letter in plain.chars() {
        match letter {
            '+' => hash.push('-')?,
            '/' => hash.push('_')?,
            '=' => {}
            _ => hash.push(letter)?,
        }
    }
    Ok(hash)
}

#[test]
fn the_type_hash_is_the_sha1_in_base64(rt: HostRuntime) -> Result<(), Fail> {
    for text in [
        "abc",
        "",
        "i64",
        "SharedManagementData",
        "AllocatorDetails_0",
        "AllocatorDetails_1",
    ] {
        let expected = hash_of(rt.alloc(), text.as_bytes())?;
        let name = TypeName::new(text.as_bytes()).ok_or("a type name")?;
        assert!(rt; type_hash::type_hash(&name).as_slice() == expected.as_bytes());
    }
    Ok(())
}

#[test]
fn the_sha1_of_abc_is_known(rt: HostRuntime) -> Result<(), Fail> {
    let plain = STANDARD.encode(rt.alloc(), &Sha1::digest(b"abc"))?;
    assert!(rt; plain.as_str() == "qZk+NkcGgWq6PiVxeFDCbJzQ2J0=");
    Ok(())
}

/// An error is printed as this text.
fn is_printed(
    rt: &impl Abort,
    alloc: Global,
    error: &impl Display,
    text: &str,
) -> Result<(), Fail> {
    let printed = error.to_string(alloc)?;
    assert!(rt; printed.as_str() == text);
    Ok(())
}

#[test]
fn refusals_of_looks_are_printed(rt: HostRuntime) -> Result<(), Fail> {
    use NamedConceptDoesExistError::{
        InsufficientPermissions, InternalError, UnderlyingResourcesBeingSetUp,
        UnderlyingResourcesCorrupted,
    };
    for (error, text) in [
        (
            InsufficientPermissions,
            "NamedConceptDoesExistError::InsufficientPermissions",
        ),
        (
            UnderlyingResourcesBeingSetUp,
            "NamedConceptDoesExistError::UnderlyingResourcesBeingSetUp",
        ),
        (
            UnderlyingResourcesCorrupted,
            "NamedConceptDoesExistError::UnderlyingResourcesCorrupted",
        ),
        (InternalError, "NamedConceptDoesExistError::InternalError"),
    ] {
        is_printed(&rt, rt.alloc(), &error, text)?;
    }
    Ok(())
}

#[test]
fn refusals_of_removals_are_printed(rt: HostRuntime) -> Result<(), Fail> {
    use NamedConceptRemoveError::{InsufficientPermissions, InternalError, NoMemory};
    for (error, text) in [
        (
            InsufficientPermissions,
            "NamedConceptRemoveError::InsufficientPermissions",
        ),
        (InternalError, "NamedConceptRemoveError::InternalError"),
        (NoMemory, "NamedConceptRemoveError::NoMemory"),
    ] {
        is_printed(&rt, rt.alloc(), &error, text)?;
    }
    Ok(())
}

#[test]
fn refusals_of_lists_are_printed(rt: HostRuntime) -> Result<(), Fail> {
    use NamedConceptListError::{InsufficientPermissions, InternalError, NoMemory};
    for (error, text) in [
        (
            InsufficientPermissions,
            "NamedConceptListError::InsufficientPermissions",
        ),
        (InternalError, "NamedConceptListError::InternalError"),
        (NoMemory, "NamedConceptListError::NoMemory"),
    ] {
        is_printed(&rt, rt.alloc(), &error, text)?;
    }
    Ok(())
}

#[test]
fn other_refusals_are_printed(rt: HostRuntime) -> Result<(), Fail> {
    use NamedConceptPathHintRemoveError::{InsufficientPermissions, InternalError};
    for (error, text) in [
        (
            InsufficientPermissions,
            "NamedConceptPathHintRemoveError::InsufficientPermissions",
        ),
        (
            InternalError,
            "NamedConceptPathHintRemoveError::InternalError",
        ),
    ] {
        is_printed(&rt, rt.alloc(), &error, text)?;
    }
    is_printed(&rt, rt.alloc(), &PathTooLong, "PathTooLong")
}

#[test]
fn names_are_shown_for_debugging(rt: HostRuntime) -> Result<(), Fail> {
    let name = TypeName::new(&[0, 97]).ok_or("a type name")?;
    let text = format!(in rt.alloc(); "{name:?}")?;
    assert!(rt; text.as_str() == "TypeName { bytes: \"\\x00a\" }");
    Ok(())
}
