//! Which names a registry has, and which it lists.
use super::fixtures::{create, long_name, my_name, open};
use crate::dynamic_storage::{file, process_local};
use crate::{
    DynamicStorage, DynamicStorageBuilder, DynamicStorageCreateError, DynamicStorageOpenError,
    DynamicStorageOpenOrCreateError, Registry,
};
use cal_names::{FileName, FilePath, NamedConcept, NamedConceptBuilder, NamedConceptConfiguration};
use std::alloc::Global;
use std::process::Abort;
use std::test::Fail;

/// The path of a name of 255 bytes would be too long for each call that makes a storage.
fn a_long_name_is_not_created<S: DynamicStorage<i64>>(
    rt: &impl Abort,
    alloc: Global,
) -> Result<(), Fail> {
    let name = long_name()?;
    let mut reg = Registry::new(alloc);
    let refused = create::<S>(&mut reg, &name, 873);
    assert!(rt; matches!(refused, Err(DynamicStorageCreateError::PathTooLong)));
    let refused = S::Builder::new(&name).open_or_create(&mut reg, 444, |_, _| true);
    assert!(rt;
        matches!(
            refused,
            Err(DynamicStorageOpenOrCreateError::DynamicStorageOpenError(
                DynamicStorageOpenError::PathTooLong
            ))
        )
    );
    assert!(rt; reg.len() == 0);
    Ok(())
}

/// It is not there for each call that finds a storage.
fn a_long_name_is_not_found<S: DynamicStorage<i64>>(
    rt: &impl Abort,
    alloc: Global,
) -> Result<(), Fail> {
    let name = long_name()?;
    let mut reg = Registry::new(alloc);
    let refused = open::<S>(&mut reg, &name);
    assert!(rt; matches!(refused, Err(DynamicStorageOpenError::PathTooLong)));
    assert!(rt; matches!(S::remove(alloc, &mut reg, &name), Ok(false)));
    assert!(rt; matches!(S::does_exist(&reg, &name), Ok(false)));
    Ok(())
}

#[test]
fn a_long_name_cannot_be_begun(rt: HostRuntime) -> Result<(), Fail> {
    let mut reg = Registry::new(rt.alloc());
    let begun = file::Builder::<i64>::new(&long_name()?).begin(&mut reg, 444);
    assert!(rt; matches!(begun, Err(DynamicStorageCreateError::PathTooLong)));
    Ok(())
}

/// The names, each with a blank after it.
fn joined(alloc: Global, names: &[FileName]) -> Result<String, Fail> {
    let mut texts = String::new(alloc);
    for name in names {
        for byte in name.as_bytes() {
            texts.push(char::from(*byte))?;
        }
        texts.push(' ')?;
    }
    Ok(texts)
}

/// Makes a storage of a name under a prefix of its own.
fn make_under_prefix<S: DynamicStorage<i64>>(
    reg: &mut Registry<i64>,
    name: &FileName,
    prefix: &FileName,
) -> Result<(), Fail> {
    let config = S::Configuration::default().prefix(prefix);
    let _made = S::Builder::new(name)
        .config(&config)
        .create(reg, 873, |_, _| true)?;
    Ok(())
}

/// Makes storages of five names under the prefix of all storages, and of one under another.
fn make_six<S: DynamicStorage<i64>>(
    reg: &mut Registry<i64>,
    prefix: &FileName,
) -> Result<(), Fail> {
    for text in ["b", "ab", "a", "B", "a-"] {
        let name = FileName::new(text.as_bytes()).ok_or("a file name")?;
        let _made = create::<S>(reg, &name, 444)?;
    }
    let other = FileName::new(b"other").ok_or("a file name")?;
    make_under_prefix::<S>(reg, &other, prefix)
}

/// The names that are listed.
fn listed<S: DynamicStorage<i64>>(alloc: Global, reg: &Registry<i64>) -> Result<String, Fail> {
    let names = S::list(alloc, reg)?;
    joined(alloc, names.as_slice())
}

/// The names that are listed under a prefix.
fn listed_under<S: DynamicStorage<i64>>(
    alloc: Global,
    reg: &Registry<i64>,
    prefix: &FileName,
) -> Result<String, Fail> {
    let config = S::Configuration::default().prefix(prefix);
    let names = S::list_cfg(alloc, reg, &config)?;
    joined(alloc, names.as_slice())
}

/// The names are listed in the order of the bytes of their paths, in which `-` comes before `.`. Those under another
/// prefix are listed where this is asked for.
fn names_are_listed<S: DynamicStorage<i64>>(rt: &impl Abort, alloc: Global) -> Result<(), Fail> {
    let mut reg = Registry::new(alloc);
    let prefix = FileName::new(b"hidden_").ok_or("a file name")?;
    make_six::<S>(&mut reg, &prefix)?;
    assert!(rt; listed::<S>(alloc, &reg)?.as_str() == "B a- a ab b ");
    assert!(rt; listed_under::<S>(alloc, &reg, &prefix)?.as_str() == "other ");
    assert!(rt; reg.len() == 6);
    Ok(())
}

/// Where a storage of this name is kept.
fn path_of<S: DynamicStorage<i64>>(name: &FileName) -> Result<FilePath, Fail> {
    Ok(S::Configuration::default().path_for(name)?)
}

/// A registry has the path of a name, and of no other.
fn a_path_is_there<S: DynamicStorage<i64>>(rt: &impl Abort, alloc: Global) -> Result<(), Fail> {
    let name = my_name()?;
    let path = path_of::<S>(&name)?;
    let mut reg = Registry::new(alloc);
    assert!(rt; !reg.contains(&path));
    let _made = create::<S>(&mut reg, &name, 444)?;
    assert!(rt; reg.contains(&path));
    let other = FilePath::new(b"/tmp/myDynStorage").ok_or("a file path")?;
    assert!(rt; !reg.contains(&other));
    assert!(rt; reg.len() == 1);
    Ok(())
}

/// A storage has the name of its builder, and its kind has a suffix.
fn a_storage_has_its_name<S: DynamicStorage<i64>>(
    rt: &impl Abort,
    alloc: Global,
) -> Result<(), Fail> {
    let name = my_name()?;
    let mut reg = Registry::new(alloc);
    let made = S::Builder::new(&name)
        .call_drop_on_destruction(false)
        .timeout(3)
        .create(&mut reg, 444, |_, _| true)?;
    assert!(rt; *made.name() == name);
    assert!(rt; S::default_suffix().as_bytes() == b".dyn".as_slice());
    assert!(rt; S::does_support_persistency());
    Ok(())
}

/// All of these for one kind of storage.
fn each_rule<S: DynamicStorage<i64>>(rt: &impl Abort, alloc: Global) -> Result<(), Fail> {
    a_long_name_is_not_created::<S>(rt, alloc)?;
    a_long_name_is_not_found::<S>(rt, alloc)?;
    names_are_listed::<S>(rt, alloc)?;
    a_path_is_there::<S>(rt, alloc)?;
    a_storage_has_its_name::<S>(rt, alloc)
}

#[test]
fn each_rule_of_names(rt: HostRuntime) -> Result<(), Fail> {
    each_rule::<process_local::Storage<i64>>(&rt, rt.alloc())?;
    each_rule::<file::Storage<i64>>(&rt, rt.alloc())
}
