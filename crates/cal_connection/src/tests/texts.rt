//! The texts of errors.
use crate::{
    ChannelStateNewError, ZeroCopyCreationError, ZeroCopyPortRemoveError, ZeroCopyReceiveError,
    ZeroCopyReclaimError, ZeroCopyReleaseError, ZeroCopySendError,
};
use std::test::Fail;

#[test]
fn each_text_begins_with_the_name_of_its_type(rt: HostRuntime) -> Result<(), Fail> {
    let alloc = rt.alloc();
    let removal = ZeroCopyPortRemoveError::DoesNotExist.to_string(alloc)?;
    assert!(rt; removal.as_str() == "ZeroCopyPortRemoveError::DoesNotExist");
    let creation = ZeroCopyCreationError::IncompatibleNumberOfSegments.to_string(alloc)?;
    assert!(rt; creation.as_str() == "ZeroCopyCreationError::IncompatibleNumberOfSegments");
    let sending = ZeroCopySendError::NoConnectedReceiverAndBufferIsFull.to_string(alloc)?;
    assert!(rt; sending.as_str() == "ZeroCopySendError::NoConnectedReceiverAndBufferIsFull");
    let receiving = ZeroCopyReceiveError::ReceiveWouldExceedMaxBorrowValue.to_string(alloc)?;
    assert!(rt; receiving.as_str() == "ZeroCopyReceiveError::ReceiveWouldExceedMaxBorrowValue");
    let reclaiming = ZeroCopyReclaimError::ReceiverReturnedCorruptedPointerOffset.to_string(alloc)?;
    assert!(rt;
        reclaiming.as_str() == "ZeroCopyReclaimError::ReceiverReturnedCorruptedPointerOffset"
    );
    let releasing = ZeroCopyReleaseError::RetrieveBufferFull.to_string(alloc)?;
    assert!(rt; releasing.as_str() == "ZeroCopyReleaseError::RetrieveBufferFull");
    let state = ChannelStateNewError::ValueOutOfBounds.to_string(alloc)?;
    assert!(rt; state.as_str() == "ChannelStateNewError::ValueOutOfBounds");
    Ok(())
}
