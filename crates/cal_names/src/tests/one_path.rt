//! A kind of concept over a registry with room for one path, managed through its bound.
ghost use Rattle.std.specs.Prelude.{◌≡◌, None, Some, codes, false, refl, if◌then◌else◌};
ghost use Rattle.std.specs.Option.{option_to_list, option_and_then};
ghost use Rattle.cal_names.specs.ConceptSettings.{settings_of, extracted_name_at};
ghost use Rattle.cal_names.specs.Examples.{receiver_parts};
ghost use Rattle.cal_names.specs.NamedConceptMgmt.{is_name, is_name-same};

use crate::{
    FileName, FilePath, NamedConcept, NamedConceptBuilder, NamedConceptConfiguration,
    NamedConceptDoesExistError, NamedConceptListError, NamedConceptMgmt,
    NamedConceptPathHintRemoveError, NamedConceptRemoveError, Path, PathParts, TypeName,
};
use std::alloc::Global;
use std::process::Abort;
use std::test::Fail;

/// A configuration of a concept that stores nothing.
#[derive(Clone, Copy, Debug)]
struct Plain {
    parts: PathParts,
}

impl Default for Plain {
    ghost is_default = { λ c. c.parts ≡ receiver_parts };

    fn default() -> Self {
        Plain {
            parts: PathParts {
                prefix: FileName::new(b"iox2_").unwrap(),
                suffix: FileName::new(b".rx").unwrap(),
                path_hint: Path::new(b"/tmp").unwrap(),
            },
        }
    }
}

impl NamedConceptConfiguration for Plain {
    ghost settings = { λ c. settings_of c.parts None };

    ghost initial = { settings_of receiver_parts None };

    fn parts(&self) -> &PathParts {
        &self.parts
    }

    fn with_parts(self, parts: PathParts) -> Self {
        let Plain { parts: _ } = self;
        Plain { parts }
    }

    fn get_type_name(&self) -> Option<TypeName> {
        None
    }

    ghost starts = { λ c default i. settings_of (default i) None };

    ghost defaults = { (refl, refl) };
}

/// A registry with room for one path.
type OnePath = Option<FilePath>;

/// A kind of concept over such a registry.
#[derive(Debug)]
struct Lone;

impl NamedConceptMgmt for Lone {
    type Configuration = Plain;

    type Names = OnePath;

    ghost paths = { option_to_list };

    ghost shown_name = { extracted_name_at };

    ghost goes_with = { λ settings name path. is_name name (extracted_name_at settings path) };

    ghost removed = { λ settings name reg.
        option_and_then (λ path. if is_name name (extracted_name_at settings path) then None else Some path) reg };

    ghost lists_first = { false };

    // Nothing is open.
    ghost KeepsOpen = { λ _ _. Unit {0} };

    fn remove_cfg(
        _alloc: Global,
        reg: &mut OnePath,
        name: &FileName,
        cfg: &Plain,
    ) -> Result<bool, NamedConceptRemoveError> {
        let Some(path) = *reg else {
            return Ok(false);
        };
        if cfg.extract_name_from_path(&path) == Some(*name) {
            *reg = None;
            Ok(true)
        } else {
            Ok(false)
        }
    }

    fn does_exist_cfg(
        reg: &OnePath,
        name: &FileName,
        cfg: &Plain,
    ) -> Result<bool, NamedConceptDoesExistError> {
        match reg {
            None => Ok(false),
            Some(path) => Ok(cfg.extract_name_from_path(path) == Some(*name)),
        }
    }

    fn list_cfg(
        alloc: Global,
        reg: &OnePath,
        cfg: &Plain,
    ) -> Result<Vec<FileName>, NamedConceptListError> {
        let mut names = Vec::new(alloc);
        if let Some(path) = reg {
            if let Some(name) = cfg.extract_name_from_path(path) {
                names
                    .push(name)
                    .map_err(|_| NamedConceptListError::NoMemory)?;
            }
        }
        Ok(names)
    }

    fn remove_path_hint(_value: &Path) -> Result<(), NamedConceptPathHintRemoveError> {
        Ok(())
    }

    ghost shown_goes = { λ settings path name shown. is_name-same name (extracted_name_at settings path) shown };
}

/// A concept of this kind, which is its own builder.
#[derive(Debug, Drop)]
struct Built {
    name: FileName,
    config: Plain,
}

impl NamedConceptBuilder<Lone> for Built {
    type Options = ();

    ghost plan = { λ b. record { name = b.name; settings = settings_of b.config.parts None; options = tt } };

    ghost default_options = { tt };

    fn new(name: &FileName) -> Self {
        Built {
            name: *name,
            config: Plain::default(),
        }
    }

    fn config(self, config: &Plain) -> Self {
        let Built { name, config: _ } = self;
        Built {
            name,
            config: *config,
        }
    }
}

impl NamedConcept for Built {
    ghost concept_name = { λ b. b.name };

    fn name(&self) -> &FileName {
        &self.name
    }
}

/// A registry that has the path of `mem`.
fn with_mem<M: NamedConceptMgmt<Names = OnePath>>() -> Result<OnePath, Fail> {
    let mem = FileName::new(b"mem").ok_or("a file name")?;
    Ok(Some(M::Configuration::default().path_for(&mem)?))
}

/// The looks of the management, through its bound.
fn looks<M: NamedConceptMgmt<Names = OnePath>>(rt: &impl Abort, alloc: Global) -> Result<(), Fail> {
    let mem = FileName::new(b"mem").ok_or("a file name")?;
    let other = FileName::new(b"other").ok_or("a file name")?;
    let reg = with_mem::<M>()?;
    assert!(rt; matches!(M::does_exist(&reg, &mem), Ok(true)));
    assert!(rt; matches!(M::does_exist(&reg, &other), Ok(false)));
    let names = M::list(alloc, &reg)?;
    assert!(rt; names.as_slice() == [mem].as_slice());
    Ok(())
}

/// The removals of the management, through its bound.
fn removes<M: NamedConceptMgmt<Names = OnePath>>(
    rt: &impl Abort,
    alloc: Global,
) -> Result<(), Fail> {
    let mem = FileName::new(b"mem").ok_or("a file name")?;
    let other = FileName::new(b"other").ok_or("a file name")?;
    let mut reg = with_mem::<M>()?;
    assert!(rt; matches!(M::remove(alloc, &mut reg, &other), Ok(false)));
    assert!(rt; matches!(M::remove(alloc, &mut reg, &mem), Ok(true)));
    assert!(rt; matches!(reg, None));
    Ok(())
}

/// The defaults of the management, through its bound.
fn has_defaults<M: NamedConceptMgmt<Names = OnePath>>(rt: &impl Abort) {
    let config = M::Configuration::default();
    assert!(rt; matches!(M::remove_path_hint(&M::default_path_hint()), Ok(())));
    assert!(rt; M::default_prefix() == *config.get_prefix());
    assert!(rt; M::default_path_hint() == *config.get_path_hint());
}

#[test]
fn one_path_is_managed(rt: HostRuntime) -> Result<(), Fail> {
    looks::<Lone>(&rt, rt.alloc())?;
    removes::<Lone>(&rt, rt.alloc())?;
    has_defaults::<Lone>(&rt);
    Ok(())
}

#[test]
fn nothing_stands_between_prefix_and_name(rt: HostRuntime) -> Result<(), Fail> {
    let mem = FileName::new(b"mem").ok_or("a file name")?;
    let path = Plain::default().path_for(&mem)?;
    assert!(rt; path.as_bytes() == b"/tmp/iox2_mem.rx".as_slice());
    Ok(())
}

fn is_built_with_its_name<B: NamedConceptBuilder<Lone> + NamedConcept + Drop>(
    name: &FileName,
) -> bool {
    let built = B::new(name).config(&Plain::default());
    built.name() == name
}

#[test]
fn a_concept_has_its_name(rt: HostRuntime) -> Result<(), Fail> {
    let mem = FileName::new(b"mem").ok_or("a file name")?;
    assert!(rt; is_built_with_its_name::<Built>(&mem));
    Ok(())
}
