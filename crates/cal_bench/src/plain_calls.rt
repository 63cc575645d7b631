//! Calls that one thread makes alone: a chunk of a pool got and freed, a value pushed into a queue and popped, and a
//! number put into a used list and taken out.
ghost use Rattle.std.specs.Prelude.{◌≡◌, IsTrue, IfOk, OnErr};

use cal_alloc::pool_allocator::Config;
use cal_alloc::{Layout, PointerOffset, PoolAllocator, ShmAllocationError, ShmAllocator};
use cal_queue::index_queue::IndexQueue;
use cal_queue::used_chunk_list::UsedChunkList;
use std::alloc::{AllocError, Global};

const CHUNK_SIZE: usize = 64;

const ALIGNMENT: usize = 8;

const CHUNKS: usize = 1024;

/// Which of the plain containers is called.
#[derive(Clone, Copy)]
pub enum Container {
    Pool,
    Queue,
    UsedList,
}

/// The container and the count that the words of the command line name; the count is at least 1.
pub fn container_of(words: &[String]) -> Option<(Container, u64)> {
    if words.len() != 2 {
        return None;
    }
    let count: u64 = words[1].parse().ok()?;
    let container = match words[0].as_str() {
        "pool" => Container::Pool,
        "queue" => Container::Queue,
        "used" => Container::UsedList,
        _ => return None,
    };
    (count > 0).then_some((container, count))
}

impl Container {
    /// Makes the two calls so many times; how often they did what they are for.
    pub fn call(self, alloc: Global, count: u64) -> Result<u64, AllocError> {
        match self {
            Container::Pool => pool(alloc, count),
            Container::Queue => queue(alloc, count),
            Container::UsedList => used_list(alloc, count),
        }
    }
}

/// Gets a chunk. Kept apart from `free`, so that no compiler sees that the two undo each other.
#[inline(never)]
fn get<A: ShmAllocator>(
    allocator: &mut A,
    layout: Layout,
) -> Result<PointerOffset, ShmAllocationError>
    requires ready { IsTrue (A.properties allocator.old).is_ready }
    ensures given { IfOk result (λ pointer. A.Allocates allocator.old layout pointer allocator.new) }
    ensures err { OnErr result (allocator.new ≡ allocator.old) }
{
    allocator.allocate(layout)
}

/// Frees a chunk.
#[inline(never)]
fn free<A: ShmAllocator>(allocator: &mut A, pointer: PointerOffset, layout: Layout)
    requires allocated { A.IsAllocated allocator.old pointer }
    ensures freed { A.Deallocates allocator.old pointer allocator.new }
{
    allocator.deallocate(pointer, layout);
}

/// Gets a chunk and frees it again, so many times; how often there was one.
fn get_and_free<A: ShmAllocator>(allocator: &mut A, layout: Layout, count: u64) -> u64
    requires ready { IsTrue (A.properties allocator.old).is_ready }
{
    let mut got = 0u64;
    'calls: for _ in 0..count {
        if let Ok(pointer) = get(allocator, layout) {
            free(allocator, pointer, layout);
            got = got.wrapping_add(1);
        }
    }
    got
}

/// A pool's chunk got and freed, so many times; how often there was one.
fn pool(alloc: Global, count: u64) -> Result<u64, AllocError> {
    let Some(bucket_layout) = Layout::new(CHUNK_SIZE, ALIGNMENT) else {
        return Ok(0);
    };
    let config = Config { bucket_layout };
    if !PoolAllocator::fits(CHUNK_SIZE * CHUNKS, &config) {
        return Ok(0);
    }
    let mut pool = PoolAllocator::new_uninit(ALIGNMENT, CHUNK_SIZE * CHUNKS, &config);
    match pool.init(alloc) {
        Ok(()) => Ok(get_and_free(&mut pool, bucket_layout, count)),
        Err(_) => Err(AllocError),
    }
}

/// A value pushed into a queue and popped, so many times; how often one came back.
fn queue(alloc: Global, count: u64) -> Result<u64, AllocError> {
    let mut queue = IndexQueue::new(alloc, CHUNKS)?;
    let mut popped = 0u64;
    for value in 0..count {
        let _ = queue.push(value);
        if queue.pop() == Some(value) {
            popped = popped.wrapping_add(1);
        }
    }
    Ok(popped)
}

/// A number put into a used list and taken out, so many times; how often it was there.
fn used_list(alloc: Global, count: u64) -> Result<u64, AllocError> {
    let mut list = UsedChunkList::new(alloc, CHUNKS)?;
    let mut removed = 0u64;
    for value in 0..count {
        let number = value as usize % CHUNKS;
        if number < list.capacity() {
            let _ = list.insert(number);
            if list.remove(number) {
                removed = removed.wrapping_add(1);
            }
        }
    }
    Ok(removed)
}
