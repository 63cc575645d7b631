ghost use Rattle.std.specs.Prelude.{◌≡◌, ◌≢◌, ◌≤◌, ℕ, Some, IsTrue, IsFalse, IfSome, IfOk};
ghost use Rattle.cal_alloc.specs.Chunks.{IsInChunk, chunk_size};

use crate::laws::chunks_that_are_out_are_apart;
use crate::{
    AllocationStrategy, BumpAllocator, Layout, PointerOffset, PoolAllocator, SegmentId,
    ShmAllocationError, ShmAllocator, ShmAllocatorInitError, SizeOutOfRange, bump_allocator,
    pool_allocator,
};
use std::alloc::Global;
use std::test::Fail;

/// The pointers of two chunks that are handed out one after the other. The clause is proved from the laws of the trait
/// alone.
fn two_chunks<A: ShmAllocator>(
    allocator: &mut A,
    layout: Layout,
) -> Option<(PointerOffset, PointerOffset)>
    requires { IsTrue (A.properties allocator.old).is_ready }
    ensures apart { IfSome result (λ pointers. (byte : ℕ) →
        IsInChunk pointers.0 (chunk_size (A.properties allocator.old) layout) byte →
        ¬ IsInChunk pointers.1 (chunk_size (A.properties allocator.old) layout) byte) }
{
    let first = allocator.allocate(layout).ok()?;
    let second = allocator.allocate(layout).ok()?;
    Some((first, second))
}

/// The pointer that a layout gets in memory that is set up as this allocator proposes. It gets one in any case: that
/// the `unwrap` may be called is proved from the clauses of the trait alone.
fn offset_after_growth<A: ShmAllocator>(
    alloc: Global,
    allocator: &A,
    layout: Layout,
    strategy: AllocationStrategy,
) -> Result<PointerOffset, Fail>
    requires growing { strategy ≢ AllocationStrategy.Static }
    requires not_empty { A.refusal allocator.now layout ≢ Some ShmAllocationError.SizeIsZero }
    requires aligned { IsFalse A.growth_raises_alignment →
        layout.alignment ≤ (A.properties allocator.now).max_alignment }
{
    let hint = allocator.resize_hint(layout, strategy)?;
    let mut next = A::new_uninit(4096, hint.payload_size, &hint.config);
    next.init(alloc)?;
    Ok(next.allocate(layout).unwrap())
}

/// The pointer of a second chunk, where the first was given back before it. That the first is out, and that the
/// allocator still serves then, is proved from the laws of the trait alone.
fn offset_after_return<A: ShmAllocator>(allocator: &mut A, layout: Layout) -> Option<PointerOffset>
    requires { IsTrue (A.properties allocator.old).is_ready }
{
    let pointer = allocator.allocate(layout).ok()?;
    allocator.deallocate(pointer, layout);
    allocator.allocate(layout).ok()
}

fn layout(size: usize, alignment: usize) -> Result<Layout, Fail>
    ensures { IfOk result (λ layout. layout ≡ record { size = size; alignment = alignment }) }
{
    Ok(Layout::new(size, alignment).ok_or("the alignment is a power of two")?)
}

/// A pool over so many bytes, whose `init` has answered Ok.
fn pool(alloc: Global, memory_size: usize, bucket_layout: Layout) -> Result<PoolAllocator, Fail>
    ensures { IfOk result (λ pool. IsTrue pool.is_ready) }
{
    let config = pool_allocator::Config { bucket_layout };
    if !PoolAllocator::fits(memory_size, &config) {
        return Err(Fail::from("the pool doesn't fit"));
    }
    let mut pool = PoolAllocator::new_uninit(4096, memory_size, &config);
    pool.init(alloc)?;
    Ok(pool)
}

/// A bump allocator over 64 bytes, whose `init` has answered Ok.
fn bump(alloc: Global) -> Result<BumpAllocator, Fail>
    ensures { IfOk result (λ bump. IsTrue bump.is_ready) }
{
    let mut bump = BumpAllocator::new_uninit(8, 64, &bump_allocator::Config {});
    bump.init(alloc)?;
    Ok(bump)
}

#[test]
fn a_pool_hands_out_its_buckets(rt: HostRuntime) -> Result<(), Fail> {
    let layout = Layout::new(24, 8).ok_or("the alignment is a power of two")?;
    let config = pool_allocator::Config {
        bucket_layout: layout,
    };
    assert!(rt; PoolAllocator::fits(48, &config));
    let mut pool = PoolAllocator::new_uninit(4096, 48, &config);
    pool.init(rt.alloc())?;
    let first = pool.allocate(layout)?;
    let second = pool.allocate(layout)?;
    assert!(rt; (first.offset(), second.offset()) == (0, 24));
    assert!(rt; pool.allocate(layout) == Err(ShmAllocationError::OutOfMemory));
    pool.deallocate(first, layout);
    assert!(rt; pool.allocate(layout) == Ok(first));
    Ok(())
}

#[test]
fn offset_and_segment_are_one_number(rt: HostRuntime) {
    let pointer = PointerOffset::from_offset_and_segment_id(100, SegmentId::new(5));
    assert!(rt; pointer.as_value() == 25605);
}

#[test]
fn offsets_and_causes_are_printed(rt: HostRuntime) -> Result<(), Fail> {
    let pointer = PointerOffset::from_offset_and_segment_id(100, SegmentId::new(5));
    let text = format!(in rt.alloc(); "{pointer:?}")?;
    assert!(rt; text.as_str() == "PointerOffset { offset: 100, segment_id: SegmentId(5) }");
    for (cause, name) in [
        (
            ShmAllocationError::ExceedsMaxSupportedAlignment,
            "ShmAllocationError::ExceedsMaxSupportedAlignment",
        ),
        (
            ShmAllocationError::SizeTooLarge,
            "ShmAllocationError::SizeTooLarge",
        ),
        (
            ShmAllocationError::OutOfMemory,
            "ShmAllocationError::OutOfMemory",
        ),
        (
            ShmAllocationError::SizeIsZero,
            "ShmAllocationError::SizeIsZero",
        ),
    ] {
        let text = format!(in rt.alloc(); "{cause}")?;
        assert!(rt; text.as_str() == name);
    }
    for (cause, name) in [
        (
            ShmAllocatorInitError::MaxSupportedMemoryAlignmentInsufficient,
            "ShmAllocatorInitError::MaxSupportedMemoryAlignmentInsufficient",
        ),
        (
            ShmAllocatorInitError::AllocationFailed,
            "ShmAllocatorInitError::AllocationFailed",
        ),
    ] {
        let text = format!(in rt.alloc(); "{cause}")?;
        assert!(rt; text.as_str() == name);
    }
    let text = format!(in rt.alloc(); "{SizeOutOfRange}")?;
    assert!(rt; text.as_str() == "SizeOutOfRange");
    Ok(())
}

#[test]
fn a_bump_allocator_goes_from_the_front_on(rt: HostRuntime) -> Result<(), Fail> {
    let mut bump = bump(rt.alloc())?;
    assert!(rt; bump.allocate(layout(3, 1)?)? == PointerOffset::new(0));
    assert!(rt; bump.allocate(layout(8, 8)?)? == PointerOffset::new(8));
    assert!(rt;
        matches!(
            bump.allocate(layout(49, 1)?),
            Err(ShmAllocationError::OutOfMemory)
        )
    );
    assert!(rt;
        matches!(
            bump.allocate(layout(0, 1)?),
            Err(ShmAllocationError::SizeIsZero)
        )
    );
    assert!(rt;
        matches!(
            bump.allocate(layout(1, 16)?),
            Err(ShmAllocationError::ExceedsMaxSupportedAlignment)
        )
    );
    for (size, strategy, payload_size) in [
        (48, AllocationStrategy::BestFit, 112),
        (48, AllocationStrategy::PowerOfTwo, 128),
        (48, AllocationStrategy::Static, 64),
        (47, AllocationStrategy::BestFit, 64),
        (47, AllocationStrategy::PowerOfTwo, 64),
        (47, AllocationStrategy::Static, 64),
    ] {
        let hint = bump.resize_hint(layout(size, 1)?, strategy)?;
        assert_eq!(rt;
            hint.payload_size,
            payload_size,
            "{size} under {strategy:?}"
        );
    }
    Ok(())
}

#[test]
fn a_full_pool_proposes_a_larger_one(rt: HostRuntime) -> Result<(), Fail> {
    let mut pool = pool(rt.alloc(), 4096, layout(1024, 8)?)?;
    'buckets: for _ in 0..4 {
        assert!(rt; pool.allocate(layout(1024, 8)?).is_ok());
    }
    assert!(rt;
        matches!(
            pool.allocate(layout(1024, 8)?),
            Err(ShmAllocationError::OutOfMemory)
        )
    );
    let asked = layout(1500, 16)?;
    for (strategy, size, alignment, payload_size) in [
        (AllocationStrategy::BestFit, 1504, 16, 7520),
        (AllocationStrategy::PowerOfTwo, 2048, 16, 16384),
        (AllocationStrategy::Static, 1024, 8, 4096),
    ] {
        let hint = pool.resize_hint(asked, strategy)?;
        assert_eq!(rt; hint.payload_size, payload_size, "{strategy:?}");
        assert_eq!(rt;
            hint.config.bucket_layout,
            layout(size, alignment)?,
            "{strategy:?}"
        );
    }
    Ok(())
}

#[test]
fn init_needs_the_alignment_in_memory(rt: HostRuntime) -> Result<(), Fail> {
    for (alignment, answer) in [
        (
            8192,
            Err(ShmAllocatorInitError::MaxSupportedMemoryAlignmentInsufficient),
        ),
        (8, Ok(())),
    ] {
        let config = pool_allocator::Config {
            bucket_layout: layout(8, alignment)?,
        };
        assert!(rt; PoolAllocator::fits(65536, &config));
        let mut pool = PoolAllocator::new_uninit(4096, 65536, &config);
        assert_eq!(rt; pool.init(rt.alloc()), answer, "alignment {alignment}");
    }
    Ok(())
}

#[test]
fn hints_end_at_their_limits(rt: HostRuntime) -> Result<(), Fail> {
    const LARGEST: usize = 1 << 56;
    for (size, alignment, count, is_in_range) in [
        (LARGEST, 1, 1, true),
        (LARGEST + 1, 1, 1, false),
        (1, 1, (1 << 32) - 1, true),
        (1, 1, 1 << 32, false),
        (usize::MAX - 1, 2, 0, true),
        (usize::MAX, 2, 0, false),
    ] {
        let hint = PoolAllocator::initial_setup_hint(layout(size, alignment)?, count);
        assert_eq!(rt;
            hint.is_ok(),
            is_in_range,
            "{count} of {size} at {alignment}"
        );
    }
    for (size, count, is_in_range) in [
        (LARGEST, 1, true),
        (LARGEST + 1, 1, false),
        (1 << 32, 1 << 24, true),
        (1 << 32, 1 << 32, false),
        (0, 1 << 32, true),
    ] {
        let hint = BumpAllocator::initial_setup_hint(layout(size, 1)?, count);
        assert_eq!(rt; hint.is_ok(), is_in_range, "{count} of {size}");
    }
    for (memory_size, size, alignment, fits) in [
        (LARGEST, 1 << 25, 1, true),
        (LARGEST + 1, 1 << 25, 1, false),
        ((1 << 32) - 1, 0, 1, true),
        (1 << 32, 0, 1, false),
        (0, usize::MAX, 2, false),
    ] {
        let config = pool_allocator::Config {
            bucket_layout: layout(size, alignment)?,
        };
        assert_eq!(rt;
            PoolAllocator::fits(memory_size, &config),
            fits,
            "{memory_size} by {size}"
        );
    }
    Ok(())
}

#[test]
fn a_pool_alone_gives_an_offset_again(rt: HostRuntime) -> Result<(), Fail> {
    let mut pool = pool(rt.alloc(), 24, layout(24, 8)?)?;
    let mut bump = bump(rt.alloc())?;
    assert!(rt; offset_after_return(&mut pool, layout(24, 8)?) == Some(PointerOffset::new(0)));
    assert!(rt; offset_after_return(&mut bump, layout(24, 8)?) == Some(PointerOffset::new(24)));
    Ok(())
}

#[test]
fn laws_hold_of_both_allocators(rt: HostRuntime) -> Result<(), Fail> {
    let mut pool = pool(rt.alloc(), 64, layout(24, 8)?)?;
    let mut bump = bump(rt.alloc())?;
    assert!(rt; two_chunks(&mut pool, layout(24, 8)?).is_some());
    assert!(rt; two_chunks(&mut bump, layout(24, 8)?).is_some());
    let asked = layout(100, 4)?;
    let pointer = offset_after_growth(rt.alloc(), &pool, asked, AllocationStrategy::BestFit)?;
    assert!(rt; pointer == PointerOffset::new(0));
    let pointer = offset_after_growth(rt.alloc(), &bump, asked, AllocationStrategy::PowerOfTwo)?;
    assert!(rt; pointer == PointerOffset::new(0));
    Ok(())
}

#[test]
fn kinds_and_defaults_are_as_named(rt: HostRuntime) -> Result<(), Fail> {
    assert!(rt; PoolAllocator::unique_id() == 0);
    assert!(rt; BumpAllocator::unique_id() == 1);
    assert!(rt; PoolAllocator::growth_raises_alignment());
    assert!(rt; !BumpAllocator::growth_raises_alignment());
    assert!(rt; matches!(AllocationStrategy::default(), AllocationStrategy::Static));
    let config = pool_allocator::Config::default();
    assert!(rt; config.bucket_layout == layout(1024, 8)?);
    assert!(rt; PoolAllocator::fits(5000, &config));
    assert!(rt; PoolAllocator::management_size(5000, &config) == 4);
    let config = bump_allocator::Config::default();
    assert!(rt; BumpAllocator::fits(5000, &config));
    assert!(rt; BumpAllocator::management_size(5000, &config) == 0);
    chunks_that_are_out_are_apart::<PoolAllocator>();
    chunks_that_are_out_are_apart::<BumpAllocator>();
    Ok(())
}

#[test]
fn allocators_tell_of_their_memory(rt: HostRuntime) -> Result<(), Fail> {
    let mut pool = pool(rt.alloc(), 100, layout(20, 8)?)?;
    assert!(rt; pool.max_alignment() == 8);
    assert!(rt; pool.relative_start_address() == 0);
    assert!(rt; pool.bucket_size() == 24);
    assert!(rt; pool.number_of_buckets() == 4);
    assert!(rt; pool.number_of_used_buckets() == 0);
    assert!(rt; pool.allocate(layout(20, 8)?).is_ok());
    assert!(rt; pool.number_of_used_buckets() == 1);
    let bump = bump(rt.alloc())?;
    assert!(rt; bump.max_alignment() == 8);
    assert!(rt; bump.relative_start_address() == 0);
    assert!(rt; bump.total_space() == 64);
    Ok(())
}

#[test]
fn a_segment_is_set_beside_its_offset(rt: HostRuntime) {
    let mut pointer = PointerOffset::from_offset_and_segment_id(100, SegmentId::new(5));
    pointer.set_segment_id(SegmentId::new(SegmentId::max_segment_id()));
    assert!(rt; SegmentId::max_segment_id() == 255);
    assert!(rt; pointer.segment_id().value() == 255);
    assert!(rt; pointer.offset() == 100);
    assert!(rt; pointer == PointerOffset::from_value(25855));
}

#[test]
fn a_pool_that_is_not_full_keeps_its_count(rt: HostRuntime) -> Result<(), Fail> {
    let pool = pool(rt.alloc(), 3072, layout(1024, 8)?)?;
    for (size, alignment, strategy, bucket_size, bucket_alignment, payload_size) in [
        (1500, 16, AllocationStrategy::BestFit, 1504, 16, 4512),
        (1500, 16, AllocationStrategy::PowerOfTwo, 2048, 16, 6144),
        (1, 2048, AllocationStrategy::BestFit, 2048, 2048, 6144),
        (1, 2048, AllocationStrategy::PowerOfTwo, 2048, 2048, 6144),
        (1, 1, AllocationStrategy::BestFit, 1024, 8, 3072),
        (1, 1, AllocationStrategy::PowerOfTwo, 1024, 8, 3072),
    ] {
        let hint = pool.resize_hint(layout(size, alignment)?, strategy)?;
        assert_eq!(rt;
            hint.payload_size,
            payload_size,
            "{size} at {alignment} under {strategy:?}"
        );
        assert_eq!(rt;
            hint.config.bucket_layout,
            layout(bucket_size, bucket_alignment)?,
            "{size} at {alignment} under {strategy:?}"
        );
    }
    Ok(())
}

#[test]
fn each_bucket_of_a_pool_is_given_once(rt: HostRuntime) -> Result<(), Fail> {
    let mut pool = pool(rt.alloc(), 72, layout(24, 8)?)?;
    assert!(rt; pool.number_of_buckets() == 3);
    assert!(rt; pool.offset_of_bucket(2) == PointerOffset::new(48));
    let asked = layout(24, 8)?;
    let first = pool.allocate(asked)?;
    let second = pool.allocate(asked)?;
    let third = pool.allocate(asked)?;
    assert!(rt; pool.bucket_of(first) * 24 == first.offset());
    let buckets = [first, second, third].map(|pointer| pointer.offset() / 24);
    for bucket in 0..3 {
        assert!(rt; buckets.contains(&bucket), "{bucket}");
    }
    assert!(rt; matches!(pool.allocate(asked), Err(ShmAllocationError::OutOfMemory)));
    Ok(())
}

#[test]
fn many_buckets_cost_nothing_until_they_are_used(rt: HostRuntime) -> Result<(), Fail> {
    let config = pool_allocator::Config {
        bucket_layout: layout(1, 1)?,
    };
    let count = (1 << 32) - 1;
    assert!(rt; PoolAllocator::fits(count, &config));
    let mut pool = PoolAllocator::new_uninit(4096, count, &config);
    // Either the words' room is there, or there is an answer for it.
    match pool.init(rt.alloc()) {
        Ok(()) => assert!(rt; pool.allocate(layout(1, 1)?).is_ok()),
        Err(error) => assert!(rt; matches!(error, ShmAllocatorInitError::AllocationFailed)),
    }
    Ok(())
}
