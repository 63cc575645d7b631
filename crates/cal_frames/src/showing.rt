//! Frames go from the camera to the screen.

ghost use Rattle.std.specs.Prelude.{◌≡◌, ◌+◌, ◌<◌, ◌≤◌, Some, Err, IfOk, OnOk};
ghost use Rattle.cal_transport.specs.Settings.{create_cause};
ghost use Rattle.cal_frames.specs.InOrder.{ArePartInOrder, last_of};
ghost use Rattle.cal_frames.specs.Sides.{Shows};

use crate::camera::hand_over;
use crate::frame_error::FrameError;
use crate::screen::take_frame;
use cal_transport::{Bytes, CreateCause, Settings, Transport};
use std::alloc::Global;

/// For how many loans a transport keeps room a frame: each command but a read may take room of one.
const ROOM: usize = 8;

/// Hands each frame over in turn. After as many as the rhythm says, the screen takes the oldest that waits, and in the
/// end all that wait. What was shown are some of the frames, byte for byte and in their order, and the last is shown.
pub fn show_frames(
    alloc: Global,
    settings: &Settings,
    frames: &[Bytes],
    rhythm: usize,
) -> Result<Vec<Bytes>, FrameError>
    requires rhythm { 0 < rhythm }
    ensures create { (cause : CreateCause) → create_cause settings.now ≡ Some cause →
        result ≡ Err (FrameError.Create cause) }
    ensures order { IfOk result (λ shown. ArePartInOrder shown.items frames.now) }
    ensures last { IfOk result (λ shown. last_of shown.items ≡ last_of frames.now) }
{
    let mut transport = Transport::open(alloc, settings, frames.len() * ROOM)?;
    let mut shown = Vec::new(alloc);
    for (number, frame) in frames.iter().enumerate() {
        hand_over(alloc, &mut transport, number, frame.as_slice())?;
        if (number + 1) % rhythm == 0 {
            show_next(alloc, &mut transport, &mut shown)?;
        }
    }
    while show_next(alloc, &mut transport, &mut shown)? {}
    Ok(shown)
}

/// Shows the oldest frame that waits behind those that were shown; whether there was one.
fn show_next(
    alloc: Global,
    transport: &mut Transport,
    shown: &mut Vec<Bytes>,
) -> Result<bool, FrameError>
    ensures shown { IfOk result (λ some. Shows transport.old shown.old.items some transport.new shown.new.items) }
    ensures room { OnOk result (transport.old.spare ≤ transport.new.spare + 2) }
{
    let Some(frame) = take_frame(alloc, transport)? else {
        return Ok(false);
    };
    shown.push(frame)?;
    Ok(true)
}
