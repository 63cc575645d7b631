//! Frames that are shown, and refusals.

use crate::SETTINGS;
use crate::frame_error::FrameError;
use crate::showing::show_frames;
use cal_alloc::AllocationStrategy;
use cal_transport::{Bytes, CreateCause, Refusal, Settings};
use std::test::Fail;

#[test]
fn every_frame_is_shown_where_none_overflows(rt: HostRuntime) -> Result<(), Fail> {
    let mut frames = Vec::new(rt.alloc());
    for bytes in [
        &b"a long first frame"[..],
        &b""[..],
        &b"short"[..],
        &b"short"[..],
    ] {
        frames.push(Bytes::new(rt.alloc(), bytes)?)?;
    }
    let shown = show_frames(rt.alloc(), &SETTINGS, frames.as_slice(), 1)?;
    assert!(rt; shown.as_slice() == frames.as_slice());
    Ok(())
}

#[test]
fn refusals_are_named(rt: HostRuntime) -> Result<(), Fail> {
    let cases = [
        (
            Settings {
                size: 0,
                ..SETTINGS
            },
            FrameError::Create(CreateCause::SizeIsZero),
        ),
        (
            Settings {
                overflow: false,
                ..SETTINGS
            },
            FrameError::Refused(Refusal::ReceiveBufferFull),
        ),
        (
            Settings {
                strategy: AllocationStrategy::Static,
                count: 8,
                ..SETTINGS
            },
            FrameError::Refused(Refusal::SizeTooLarge),
        ),
    ];
    let mut frames = Vec::new(rt.alloc());
    for bytes in [
        &b"one"[..],
        &b"two"[..],
        &b"three"[..],
        &b"a longer frame"[..],
    ] {
        frames.push(Bytes::new(rt.alloc(), bytes)?)?;
    }
    for (settings, error) in cases {
        let result = show_frames(rt.alloc(), &settings, frames.as_slice(), 4);
        assert!(rt; matches!(result, Err(e) if e == error));
    }
    Ok(())
}
