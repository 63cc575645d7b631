//! A camera hands video frames to a screen through a `Transport`. Their bytes lie in memory that grows with the frames,
//! and where the screen is too slow the oldest frames are dropped. The program prints a line for each frame shown.
//!
//! `camera.rt` has the sender's calls, `screen.rt` the receiver's, and `showing.rt` makes both in turn. A frame is sent
//! in a chunk behind its length, as `hand_over` has it:
//!
//! ```
//! let length = frame.len();
//! transport.loan(alloc, name, HEADER + length, ALIGNMENT)?;
//! transport.write(name, 0, &length.to_le_bytes())?;
//! transport.write(name, HEADER, frame)?;
//! transport.send(CHANNEL, name)?;
//! ```
#![tactic(auto)]

mod camera;
mod frame_error;
mod screen;
mod showing;
#[cfg(test)]
mod tests;

use anyhow::Result;
use cal_alloc::AllocationStrategy;
use cal_transport::{Bytes, Settings};
use showing::show_frames;
use std::alloc::{AllocError, Global};

/// How many frames the camera takes.
const FRAMES: u8 = 6;

/// The screen takes a frame after every third that the camera handed over.
const RHYTHM: usize = 3;

/// Two buckets for the smallest frames, and memory that grows by what is asked for. Two frames may wait.
const SETTINGS: Settings = Settings {
    size: 16,
    alignment: 8,
    count: 2,
    strategy: AllocationStrategy::BestFit,
    buffer: 2,
    borrow: 1,
    overflow: true,
    samples: 16,
    segments: 255,
    channels: 1,
};

fn main(rt: HostRuntime) -> Result<()> {
    let mut frames = Vec::new(rt.alloc());
    for number in 1..=FRAMES {
        frames.push(frame(rt.alloc(), number)?)?;
    }
    let shown = show_frames(rt.alloc(), &SETTINGS, frames.as_slice(), RHYTHM)?;
    for frame in &shown {
        let bytes = frame.as_slice();
        println!(rt; "frame of {} bytes: {bytes:?}", bytes.len())?;
    }
    Ok(())
}

/// A frame whose bytes are all its number; each frame has four bytes more than the one before.
fn frame(alloc: Global, number: u8) -> Result<Bytes, AllocError> {
    Ok(Bytes::from(vec![in alloc; number; number as usize * 4]?))
}
