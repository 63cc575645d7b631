//! The receiver's side: a chunk is borrowed, its frame is copied, and the chunk is given back.

ghost use Rattle.std.specs.Prelude.{◌+◌, ◌≤◌, IfOk, OnOk};
ghost use Rattle.cal_frames.specs.Sides.{Reads, Takes};

use crate::camera::{CHANNEL, HEADER};
use crate::frame_error::FrameError;
use cal_transport::{Bytes, Transport};
use std::alloc::Global;

/// Takes the oldest frame that waits, if there is one.
pub fn take_frame(alloc: Global, transport: &mut Transport) -> Result<Option<Bytes>, FrameError>
    ensures taken { IfOk result (λ frame. Takes transport.old frame transport.new) }
    ensures room { OnOk result (transport.old.spare ≤ transport.new.spare + 2) }
{
    let Some(slot) = transport.receive(CHANNEL)? else {
        return Ok(None);
    };
    let frame = read_frame(alloc, transport, slot.chunk)?;
    transport.release(CHANNEL, slot.chunk)?;
    Ok(Some(frame))
}

/// A copy of the frame in a chunk that is borrowed.
fn read_frame(alloc: Global, transport: &Transport, chunk: usize) -> Result<Bytes, FrameError>
    ensures read { IfOk result (λ frame. Reads transport.now chunk frame) }
{
    let header = transport.read(CHANNEL, chunk, 0, HEADER)?;
    let Ok(header) = <[u8; HEADER]>::try_from(header) else {
        return Err(FrameError::NoLength);
    };
    let length = usize::from_le_bytes(header);
    let frame = transport.read(CHANNEL, chunk, HEADER, length)?;
    Ok(Bytes::new(alloc, frame)?)
}
