//! The printed texts of the errors, and of the stored type's name.
use crate::{AllocatorDetails, SharedMemoryCreateError, SharedMemoryOpenError};
use cal_alloc::{BumpAllocator, PoolAllocator};
use cal_names::NamedType;
use std::test::Fail;

#[test]
fn errors_print_their_type_and_variant(rt: HostRuntime) -> Result<(), Fail> {
    let alloc = rt.alloc();
    let text = SharedMemoryCreateError::SizeOutOfRange.to_string(alloc)?;
    assert!(rt; text.as_str() == "SharedMemoryCreateError::SizeOutOfRange");
    let text = SharedMemoryOpenError::SizeDoesNotFit.to_string(alloc)?;
    assert!(rt; text.as_str() == "SharedMemoryOpenError::SizeDoesNotFit");
    Ok(())
}

#[test]
fn stored_types_name_their_allocator(rt: HostRuntime) -> Result<(), Fail> {
    let pool = AllocatorDetails::<PoolAllocator>::type_name();
    let bump = AllocatorDetails::<BumpAllocator>::type_name();
    assert!(rt; pool.as_bytes() == b"AllocatorDetails_0".as_slice());
    assert!(rt; bump.as_bytes() == b"AllocatorDetails_1".as_slice());
    Ok(())
}
