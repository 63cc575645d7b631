//! Laws of every allocator that follow from those of the trait. Each is a theorem about the definitions that the
//! contracts of the calls cite, and its function does nothing.

ghost use Rattle.std.specs.Prelude.{◌≡◌, ℕ, List, []};
ghost use Rattle.cal_alloc.specs.Chunks.{chunk_size};
ghost use Rattle.cal_alloc.specs.declared.allocation_strategy.AllocationStrategy.{AllocationStrategy};
ghost use Rattle.cal_alloc.specs.declared.allocation_strategy.AllocationStrategy.TheVariants.{Static};
ghost use Rattle.cal_alloc.specs.Runs.{OutChunk, Step, IsRun, AreApart, AreWithin};

use crate::allocation_strategy::AllocationStrategy;
use crate::shm_allocator::ShmAllocator;

/// Whatever an allocator gives out and takes back, from a time on when no byte of it was used, no two chunks that are
/// out have a byte in common, and each lies within the allocator's memory.
pub fn chunks_that_are_out_are_apart<A: ShmAllocator>()
    ensures apart { (first last : A) (steps : List Step) (out : List OutChunk) →
        ((byte : ℕ) → ¬ A.IsByteUsed first byte) → IsRun A.Allocates A.Deallocates first [] steps last out →
        AreApart (chunk_size (A.properties first)) out }
    ensures within { (first last : A) (steps : List Step) (out : List OutChunk) →
        ((byte : ℕ) → ¬ A.IsByteUsed first byte) → IsRun A.Allocates A.Deallocates first [] steps last out →
        AreWithin (chunk_size (A.properties first)) (A.properties first).total out }
{}

/// Where no strategy is chosen, memory never grows.
pub fn memory_never_grows_by_default()
    ensures never_grows { (strategy : AllocationStrategy) →
        ⟦<AllocationStrategy as Default>⟧.is_default strategy → strategy ≡ Static }
{}
