//! The builder of views. Ported from `resizable_shared_memory/dynamic.rs` of iceoryx2-cal 0.9.3.
ghost use Rattle.std.specs.Prelude.{◌≡◌, ◌⊎◌, Some, None, IfOk, IfErr, OnOk, OnErr};
ghost use Rattle.cal_storage.specs.Contents.{id_at, after_opening};
ghost use Rattle.cal_storage.specs.Holding.{KeepsHandles, JoinsHandles};
ghost use Rattle.cal_shm.specs.Plan.{path_of};
ghost use Rattle.cal_resizable.specs.View.{ViewPlan, HasView, management_plan, new_view, opening_refusal};

use crate::names::management_segment_name;
use crate::slots::SegmentSlots;
use crate::view::DynamicView;
use cal_alloc::ShmAllocator;
use cal_names::{FileName, NamedConceptBuilder};
use cal_shm::{AllocatorDetails, SharedMemory, SharedMemoryBuilder, SharedMemoryOpenError};
use cal_storage::{AccessMode, Registry};
use std::alloc::Global;
use std::marker::{Model, PhantomData};

/// A builder of views of the growing memory of a name. Contracts see the name, and what the configuration holds.
#[derive(Debug, Drop)]
pub struct DynamicViewBuilder<A: ShmAllocator, Shm: SharedMemory<A>> {
    /// The name of the memory.
    name: FileName,
    /// What makes the paths of the segments' names.
    config: Shm::Configuration,
    /// The allocator.
    of: PhantomData<A>,
}

impl<A: ShmAllocator, Shm: SharedMemory<A>> Model for DynamicViewBuilder<A, Shm> {
    ghost use Rattle.cal_resizable.specs.View.{ViewPlan};

    ghost Value = { ViewPlan };

    ghost view = { λ b. record { name = b.name; settings = Shm.Configuration.settings b.config } };
}

impl<A: ShmAllocator, Shm: SharedMemory<A>> DynamicViewBuilder<A, Shm> {
    /// A builder of views of the memory of this name, with the default configuration.
    pub fn new(name: &FileName) -> Self
        ensures plan { result ≡ record { name = name.now; settings = Shm.Configuration.initial } }
    {
        DynamicViewBuilder {
            name: *name,
            config: Shm::Configuration::default(),
            of: PhantomData,
        }
    }

    /// The builder with this configuration.
    pub fn config(self, config: &Shm::Configuration) -> Self
        ensures plan { result ≡ record self { settings = Shm.Configuration.settings config.now } }
    {
        DynamicViewBuilder {
            config: *config,
            ..self
        }
    }

    /// Has no effect: an opening looks once, since nobody else acts on the registry while it is lent.
    pub fn timeout(self, _turns: usize) -> Self
        ensures plan { result ≡ self }
    {
        self
    }

    /// Takes the room for as many segments as there can be, and then opens the management segment of the memory; none
    /// is mapped yet. `PathTooLong` comes first, where the name of the management segment is no file name; then
    /// `NoMemory`, where the room isn't there; then what refuses the opening. After an error the registry is as it was.
    pub fn open(
        self,
        alloc: Global,
        reg: &mut Registry<AllocatorDetails<A>>,
        access_mode: AccessMode,
    ) -> Result<DynamicView<A, Shm>, SharedMemoryOpenError>
        ensures served { OnOk result (opening_refusal Shm.checks_version reg.old self ≡ None) }
        ensures error { IfErr result (λ error. (opening_refusal Shm.checks_version reg.old self ≡ Some error)
            ⊎ (error ≡ SharedMemoryOpenError.NoMemory)) }
        ensures found { IfOk result (λ view. id_at reg.old (path_of (management_plan self)) ≡ Some view.management.id) }
        ensures view { IfOk result (λ view. view ≡ new_view self view.management.id) }
        ensures opened { IfOk result (λ view. reg.new ≡ after_opening reg.old view.management.id) }
        ensures has { IfOk result (HasView reg.new) }
        ensures joins { IfOk result (λ view. JoinsHandles reg.old reg.new view.management) }
        ensures keeps { KeepsHandles reg.old reg.new }
        ensures unchanged { OnErr result (reg.new ≡ reg.old) }
    {
        let Some(name) = management_segment_name(&self.name) else {
            return Err(SharedMemoryOpenError::PathTooLong);
        };
        let segments = match SegmentSlots::new(alloc) {
            Ok(segments) => segments,
            Err(_) => return Err(SharedMemoryOpenError::NoMemory),
        };
        let builder = Shm::Builder::new(&name).config(&self.config);
        match builder.open(reg, access_mode) {
            Ok(management) => Ok(DynamicView::new(
                self.name,
                self.config,
                access_mode,
                management,
                segments,
            )),
            Err(error) => Err(error),
        }
    }
}
