//! The builder of growing memory. Ported from `resizable_shared_memory/dynamic.rs` of iceoryx2-cal 0.9.3.
ghost use Rattle.std.specs.Prelude.{◌≡◌, ◌⊎◌, ◌++◌, Some, None, IfOk, IfErr, OnOk, OnErr, [], codes};
ghost use Rattle.cal_names.specs.FileName.{IsFileName};
ghost use Rattle.cal_storage.specs.ContentsLaws.{KeepsEntries};
ghost use Rattle.cal_storage.specs.Holding.{KeepsHandles};
ghost use Rattle.cal_resizable.specs.Chunks.{AreOut};
ghost use Rattle.cal_resizable.specs.Creation.{new_plan, one_byte, creation_refusal, segments_refusal, CreatesMemory, MakesMemory};
ghost use Rattle.cal_resizable.specs.Memory.{HasAll, HoldsAll, NamesAll};
ghost use Rattle.cal_resizable.specs.Slots.{count_at, empty_slots};

use crate::growth::make_segment;
use crate::memory::DynamicMemory;
use crate::names::{management_segment_name, segment_name};
use crate::slots::SegmentSlots;
use cal_alloc::{AllocationStrategy, Layout, SegmentId, SharedMemorySetupHint, ShmAllocator};
use cal_names::FileName;
use cal_shm::{AllocatorDetails, SharedMemory, SharedMemoryCreateError};
use cal_storage::Registry;
use std::alloc::Global;
use std::marker::{Model, PhantomData};

/// A builder of growing memory of a name. Contracts see its plan: the name, what makes the paths, the strategy, and for
/// how many chunks of which layout the first segment is made.
#[derive(Debug, Drop)]
pub struct DynamicMemoryBuilder<A: ShmAllocator, Shm: SharedMemory<A>> {
    /// The name of the memory.
    name: FileName,
    /// What makes the paths of the segments' names.
    config: Shm::Configuration,
    /// How the memory grows.
    strategy: AllocationStrategy,
    /// The layout that the first segment is made for.
    max_chunk_layout: Layout,
    /// The number of chunks that the first segment is made for.
    max_number_of_chunks: usize,
    /// The allocator.
    of: PhantomData<A>,
}

impl<A: ShmAllocator, Shm: SharedMemory<A>> Model for DynamicMemoryBuilder<A, Shm> {
    ghost use Rattle.cal_resizable.specs.Creation.{MemoryPlan};

    ghost Value = { MemoryPlan };

    ghost view = { λ b. record {
      name = b.name;
      settings = Shm.Configuration.settings b.config;
      strategy = b.strategy;
      layout = b.max_chunk_layout;
      number_of_chunks = b.max_number_of_chunks;
    } };
}

impl<A: ShmAllocator, Shm: SharedMemory<A>> DynamicMemoryBuilder<A, Shm> {
    /// A builder of a memory of this name, with the default configuration: memory for one chunk of one byte, which
    /// doesn't grow.
    pub fn new(name: &FileName) -> Self
        ensures plan { result ≡ new_plan name.now Shm.Configuration.initial }
    {
        DynamicMemoryBuilder {
            name: *name,
            config: Shm::Configuration::default(),
            strategy: AllocationStrategy::Static,
            max_chunk_layout: layout_of_one_byte(),
            max_number_of_chunks: 1,
            of: PhantomData,
        }
    }

    /// The builder with this configuration.
    pub fn config(self, config: &Shm::Configuration) -> Self
        ensures plan { result ≡ record self { settings = Shm.Configuration.settings config.now } }
    {
        DynamicMemoryBuilder {
            config: *config,
            ..self
        }
    }

    /// The builder of a memory whose first segment serves chunks of this layout.
    pub fn max_chunk_layout_hint(self, value: Layout) -> Self
        ensures plan { result ≡ record self { layout = value } }
    {
        DynamicMemoryBuilder {
            max_chunk_layout: value,
            ..self
        }
    }

    /// The builder of a memory whose first segment serves so many chunks.
    pub fn max_number_of_chunks_hint(self, value: usize) -> Self
        ensures plan { result ≡ record self { number_of_chunks = value } }
    {
        DynamicMemoryBuilder {
            max_number_of_chunks: value,
            ..self
        }
    }

    /// The builder of a memory that grows so.
    pub fn allocation_strategy(self, value: AllocationStrategy) -> Self
        ensures plan { result ≡ record self { strategy = value } }
    {
        DynamicMemoryBuilder {
            strategy: value,
            ..self
        }
    }

    /// Creates the memory: its management segment of one byte, and segment 0, which no chunk is out of. The memory owns
    /// both. `SizeOutOfRange` comes first, where no segment can serve the hints; then `PathTooLong`, where the name of
    /// the management segment is no file name; then what refuses the management segment, and then segment 0. After an
    /// error the registry has the names and entries that it had: what was made is taken back. `NoMemory` may come
    /// before any other error but these first two.
    pub fn create(
        self,
        alloc: Global,
        reg: &mut Registry<AllocatorDetails<A>>,
    ) -> Result<DynamicMemory<A, Shm>, SharedMemoryCreateError>
        ensures served { OnOk result (creation_refusal A.ShmAllocator.own reg.old self ≡ None) }
        ensures error { IfErr result (λ error. (creation_refusal A.ShmAllocator.own reg.old self ≡ Some error)
            ⊎ (error ≡ SharedMemoryCreateError.NoMemory)) }
        ensures created { IfOk result (CreatesMemory A.ShmAllocator.own reg.old self reg.new) }
        ensures empty { IfOk result (λ memory. count_at memory.slots memory.current ≡ 0) }
        ensures none_out { IfOk result (λ memory. AreOut A.properties A.IsByteUsed A.IsAllocated reg.new memory.slots
            []) }
        ensures has { IfOk result (HasAll reg.new) }
        ensures holds { IfOk result (HoldsAll reg.new) }
        ensures names { IfOk result (NamesAll reg.new) }
        ensures keeps { KeepsHandles reg.old reg.new }
        ensures taken_back { OnErr result (KeepsEntries reg.old reg.new) }
    {
        let first = match A::initial_setup_hint(self.max_chunk_layout, self.max_number_of_chunks) {
            Ok(hint) => hint,
            Err(_) => return Err(SharedMemoryCreateError::SizeOutOfRange),
        };
        let management = match A::initial_setup_hint(layout_of_one_byte(), 1) {
            Ok(hint) => hint,
            Err(_) => return Err(SharedMemoryCreateError::SizeOutOfRange),
        };
        let name = match management_segment_name(&self.name) {
            Some(name) => name,
            None => return Err(SharedMemoryCreateError::PathTooLong),
        };
        match SegmentSlots::new(alloc) {
            Ok(slots) => self.make(alloc, reg, &name, slots, &management, &first),
            Err(_) => Err(SharedMemoryCreateError::NoMemory),
        }
    }

    /// Makes the two segments from what is proposed for them, and the memory over them. Where the second isn't made,
    /// the first is taken back.
    fn make(
        self,
        alloc: Global,
        reg: &mut Registry<AllocatorDetails<A>>,
        name: &FileName,
        slots: SegmentSlots<A, Shm>,
        management: &SharedMemorySetupHint<A::Configuration>,
        first: &SharedMemorySetupHint<A::Configuration>,
    ) -> Result<DynamicMemory<A, Shm>, SharedMemoryCreateError>
        requires managed { name.now ≡ self.name ++ codes "__mgmt" }
        requires rule { IsFileName (self.name ++ codes "__mgmt") }
        requires empty { slots ≡ empty_slots 256 }
        ensures served { OnOk result
            (segments_refusal A.ShmAllocator.own reg.old self management.now first.now ≡ None) }
        ensures error { IfErr result (λ error.
            (segments_refusal A.ShmAllocator.own reg.old self management.now first.now ≡ Some error)
            ⊎ (error ≡ SharedMemoryCreateError.NoMemory)) }
        ensures makes { IfOk result
            (MakesMemory A.ShmAllocator.own reg.old self management.now first.now reg.new) }
        ensures empty { IfOk result (λ memory. count_at memory.slots memory.current ≡ 0) }
        ensures has { IfOk result (HasAll reg.new) }
        ensures holds { IfOk result (HoldsAll reg.new) }
        ensures names { IfOk result (NamesAll reg.new) }
        ensures keeps { KeepsHandles reg.old reg.new }
        ensures taken_back { OnErr result (KeepsEntries reg.old reg.new) }
    {
        let managing: Shm = match make_segment(alloc, reg, name, &self.config, management) {
            Ok(segment) => segment,
            Err(error) => return Err(error),
        };
        let _bytes = self.name.as_bytes();
        let first_name = segment_name(&self.name, SegmentId::new(0)).unwrap();
        match make_segment(alloc, reg, &first_name, &self.config, first) {
            Ok(segment) => {
                let mut slots = slots;
                slots.insert(0, segment);
                Ok(DynamicMemory::new(self.name, self.config, self.strategy, managing, slots))
            }
            Err(error) => {
                managing.close(reg);
                Err(error)
            }
        }
    }
}

/// The layout of one byte.
fn layout_of_one_byte() -> Layout
    ensures { result ≡ one_byte }
{
    Layout::new(1, 1).unwrap()
}
