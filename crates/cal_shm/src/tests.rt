//! Worked examples through the public calls.

mod bump_segments;
mod fixtures;
mod names;
mod round_trip;
mod shared_bytes;
mod texts;
mod worked_example;
