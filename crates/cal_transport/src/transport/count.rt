//! What memory both sides have.

ghost use Rattle.cal_resizable.specs.Memory.{HasAll};
ghost use Rattle.cal_transport.specs.CommandsDo.{CountDoes};
ghost use Rattle.cal_transport.specs.Counting.{IsCounted};

use crate::reply::Count;
use crate::transport::Transport;
use crate::transport::parts::{MemoryRegistry, TransportMemory, TransportView};

impl Transport {
    /// How many segments the memory has and how many the view has mapped, and the segment that loans are served from.
    pub fn count(&self) -> Count
        ensures step { CountDoes self.now result }
    {
        count_segments(&self.memory, &self.view, &self.memory_registry)
    }
}

/// How many segments a memory and its view have, and the memory's current segment.
fn count_segments(memory: &TransportMemory, view: &TransportView, reg: &MemoryRegistry) -> Count
    requires has { HasAll reg.now memory.now }
    ensures counted { IsCounted reg.now memory.now view.now result }
{
    let current = memory.current_segment();
    Count {
        active: memory.number_of_active_segments(),
        mapped: view.number_of_active_segments(),
        current: current.value(),
        size: memory.bucket_size(reg, current),
        buckets: memory.number_of_buckets(reg, current),
    }
}
