//! What pairs are made with, and when they are too large.
use crate::tests::calls::{pair, settings};
use crate::{PortSettings, shared_pair};
use cal_connection::{CHANNEL_STATE_OPEN, ConnectionSettings, ZeroCopyCreationError};
use std::test::Fail;

#[test]
fn an_overlarge_buffer_is_refused(rt: HostRuntime) {
    for buffer in [9_223_372_036_854_775_807, 1 << 32, (1 << 32) - 2] {
        let answer = shared_pair(rt.alloc(), &settings(buffer, 1, 1, false));
        assert!(rt;
            matches!(answer, Err(ZeroCopyCreationError::SizeOutOfRange)),
            "{buffer}"
        );
    }
}

#[test]
fn too_many_samples_are_refused(rt: HostRuntime) {
    let many = PortSettings {
        channels: 1 << 32,
        segments: 2,
        ..settings(1, 1, 1 << 30, false)
    };
    let answer = shared_pair(rt.alloc(), &many);
    assert!(rt; matches!(answer, Err(ZeroCopyCreationError::SizeOutOfRange)));
}

#[test]
fn zeros_count_as_ones(rt: HostRuntime) -> Result<(), Fail> {
    let zeros = PortSettings {
        buffer: 0,
        borrow: 0,
        samples: 0,
        channels: 0,
        overflow: true,
        segments: 0,
        initial: CHANNEL_STATE_OPEN,
    };
    let (sender, receiver) = pair(rt.alloc(), &zeros)?;
    let ones = ConnectionSettings {
        buffer_size: 1,
        enable_safe_overflow: true,
        max_borrowed_samples: 1,
        number_of_samples: 1,
        number_of_segments: 1,
        number_of_channels: 1,
    };
    assert!(rt; *sender.settings() == ones);
    assert!(rt; *receiver.settings() == ones);
    Ok(())
}

#[test]
fn indices_count_the_segments_of_one_channel_after_another(rt: HostRuntime) -> Result<(), Fail> {
    let several = PortSettings {
        channels: 4,
        segments: 3,
        ..settings(4, 4, 8, false)
    };
    let (sender, receiver) = pair(rt.alloc(), &several)?;
    assert!(rt; sender.segment_id_from_index(5).value() == 2);
    assert!(rt; receiver.segment_id_from_index(9).value() == 0);
    assert!(rt; sender.buffer_size() == 4);
    assert!(rt; receiver.max_borrowed_samples() == 4);
    assert!(rt; receiver.max_supported_shared_memory_segments() == 3);
    assert!(rt; !sender.has_enabled_safe_overflow());
    Ok(())
}
