//! The sender's side: a frame goes into a chunk behind its length, and the chunk is sent.

ghost use Rattle.std.specs.Prelude.{◌+◌, ◌<◌, ◌≤◌, OnOk};
ghost use Rattle.cal_transport.specs.ChunkEntry.{AreBelow};
ghost use Rattle.cal_frames.specs.Sides.{HandsOver};

use crate::frame_error::FrameError;
use cal_transport::Transport;
use std::alloc::Global;

/// The one channel.
pub const CHANNEL: usize = 0;

/// How many bytes of a chunk the length of its frame takes, which stands before the frame.
pub const HEADER: usize = 8;

/// The alignment of each chunk, in bytes.
const ALIGNMENT: usize = 8;

/// Hands a frame over in a chunk of this name, which is greater than all before it. Where the screen is too slow, the
/// oldest frame that waits is dropped.
pub fn hand_over(
    alloc: Global,
    transport: &mut Transport,
    name: usize,
    frame: &[u8],
) -> Result<(), FrameError>
    requires below { AreBelow transport.old.entries name }
    requires room { 0 < transport.old.spare }
    ensures handed { OnOk result (HandsOver transport.old name frame.now transport.new) }
    ensures room { OnOk result (transport.old.spare ≤ transport.new.spare + 6) }
{
    let length = frame.len();
    transport.loan(alloc, name, HEADER + length, ALIGNMENT)?;
    transport.write(name, 0, &length.to_le_bytes())?;
    transport.write(name, HEADER, frame)?;
    transport.send(CHANNEL, name)?;
    // the sender is done with it: its bucket is free again once the screen has given it back
    transport.discard(name)?;
    // at most one chunk has come back, since the screen takes no more frames than are handed over
    transport.reclaim(CHANNEL)?;
    Ok(())
}
