//! A small configuration that implements both configuration traits, used through its bounds.
ghost use Rattle.std.specs.Prelude.{◌≡◌, Some, codes, refl};
ghost use Rattle.cal_names.specs.ConceptSettings.{settings_of};
ghost use Rattle.cal_names.specs.Examples.{dyn_parts};

use crate::{
    DynamicStorageConfiguration, FileName, FilePath, NamedConceptConfiguration, Path, PathParts,
    TypeName,
};
use std::process::Abort;
use std::test::Fail;

/// A configuration of a storage of one type.
#[derive(Clone, Copy, Debug)]
struct Configuration {
    parts: PathParts,
    type_name: TypeName,
}

impl Default for Configuration {
    ghost is_default = { λ c. (c.parts ≡ dyn_parts) × (c.type_name ≡ codes "abc") };

    fn default() -> Self {
        Configuration {
            parts: PathParts {
                prefix: FileName::new(b"iox2_").unwrap(),
                suffix: FileName::new(b".dyn").unwrap(),
                path_hint: Path::new(b"/tmp").unwrap(),
            },
            type_name: TypeName::new(b"abc").unwrap(),
        }
    }
}

impl NamedConceptConfiguration for Configuration {
    ghost settings = { λ c. settings_of c.parts (Some c.type_name) };

    ghost initial = { settings_of dyn_parts (Some (codes "abc")) };

    fn parts(&self) -> &PathParts {
        &self.parts
    }

    fn with_parts(self, parts: PathParts) -> Self {
        Configuration { parts, ..self }
    }

    fn get_type_name(&self) -> Option<TypeName> {
        Some(self.type_name)
    }

    ghost starts = { λ c default i. settings_of (default.0 i) (Some (default.1 i)) };

    ghost defaults = { (refl, refl) };
}

impl DynamicStorageConfiguration for Configuration {
    fn type_name(&self) -> &TypeName {
        &self.type_name
    }
}

const ABC_MEM: &[u8] = b"/tmp/iox2_qZk-NkcGgWq6PiVxeFDCbJzQ2J0_mem.dyn";

/// Both configuration traits, used through their bounds alone.
fn makes_and_extracts<C: DynamicStorageConfiguration>(
    rt: &impl Abort,
    config: &C,
) -> Result<(), Fail> {
    let name = FileName::new(b"mem").ok_or("a file name")?;
    let path = config.path_for(&name)?;
    assert!(rt; path.as_bytes() == ABC_MEM);
    assert!(rt; config.path_for_with_type(&name)? == path);
    assert!(rt; config.extract_name_from_path(&path) == Some(name));
    Ok(())
}

/// Under another path hint a path stands for no name.
fn extracts_nothing_elsewhere<C: DynamicStorageConfiguration>(
    rt: &impl Abort,
    config: &C,
) -> Result<(), Fail> {
    let path = FilePath::new(ABC_MEM).ok_or("a file path")?;
    let elsewhere = Path::new(b"/tmp/other").ok_or("a path")?;
    let other = config.path_hint(&elsewhere);
    assert!(rt; matches!(other.extract_name_from_path(&path), None));
    Ok(())
}

/// Prefix, suffix and path hint stand where they should.
fn has_its_parts<C: DynamicStorageConfiguration>(rt: &impl Abort, config: &C) -> Result<(), Fail> {
    let prefix = FileName::new(b"my-").ok_or("a file name")?;
    let suffix = FileName::new(b".shm").ok_or("a file name")?;
    let nowhere = Path::new(b"").ok_or("a path")?;
    let other = config.prefix(&prefix).suffix(&suffix).path_hint(&nowhere);
    let name = FileName::new(b"mem").ok_or("a file name")?;
    assert!(rt;
        other.path_for(&name)?.as_bytes() == b"my-qZk-NkcGgWq6PiVxeFDCbJzQ2J0_mem.shm".as_slice()
    );
    Ok(())
}

#[test]
fn a_configuration_makes_paths_and_extracts_names(rt: HostRuntime) -> Result<(), Fail> {
    let config = Configuration::default();
    makes_and_extracts(&rt, &config)?;
    extracts_nothing_elsewhere(&rt, &config)?;
    has_its_parts(&rt, &config)
}

#[test]
fn a_name_may_be_too_long_for_a_path(rt: HostRuntime) -> Result<(), Fail> {
    let config = Configuration::default();
    let long = [b'a'; 255];
    for (len, fits) in [(1, true), (218, true), (219, false), (255, false)] {
        let name = FileName::new(&long[..len]).ok_or("a file name")?;
        assert_eq!(rt; config.path_for(&name).is_ok(), fits, "at {len}");
        assert_eq!(rt; config.path_for_with_type(&name).is_ok(), fits, "at {len}");
    }
    Ok(())
}

/// A file name stands for this name, or for none, through both calls.
fn stands_for(rt: &impl Abort, file: &str, expected: &str) -> Result<(), Fail> {
    let config = Configuration::default();
    let file_name = FileName::new(file.as_bytes()).ok_or("a file name")?;
    let name = FileName::new(expected.as_bytes());
    assert_eq!(rt;
        config.extract_name_from_file(&file_name),
        name,
        "at {file}"
    );
    assert_eq!(rt;
        config.extract_name_from_file_with_type(&file_name),
        name,
        "at {file}"
    );
    Ok(())
}

#[test]
fn a_file_name_may_stand_for_no_name(rt: HostRuntime) -> Result<(), Fail> {
    for (file, expected) in [
        ("iox2_qZk-NkcGgWq6PiVxeFDCbJzQ2J0_mem.dyn", "mem"),
        (
            "iox2_qZk-NkcGgWq6PiVxeFDCbJzQ2J0_iox2_.dyn.dyn",
            "iox2_.dyn",
        ),
        ("iox2_.dyn", ""),
        ("iox2_mem.dyn", ""),
        ("iox2_qZk-NkcGgWq6PiVxeFDCbJzQ2J0_.dyn", ""),
        ("iox2_qZk-NkcGgWq6PiVxeFDCbJzQ2J0_..dyn", ""),
        ("iox2_qZk-NkcGgWq6PiVxeFDCbJzQ2J0_...dyn", ""),
        ("iox2_qZk-NkcGgWq6PiVxeFDCbJzQ2J0_mem.shm", ""),
        ("iox2_qZk-NkcGgWq6PiVxeFDCbJzQ2J0-mem.dyn", ""),
        ("iox3_qZk-NkcGgWq6PiVxeFDCbJzQ2J0_mem.dyn", ""),
    ] {
        stands_for(&rt, file, expected)?;
    }
    Ok(())
}
