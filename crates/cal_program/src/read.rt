//! Reads a whole script.

ghost use Rattle.std.specs.Prelude.{◌≡◌, ◌<◌, ◌≤◌, length, take, IfOk, OnErr};
ghost use Rattle.std.specs.Io.KnownBytes.{IsAtEnd};
ghost use Rattle.cal_program.specs.Streams.{Takes, TakesNothing};
ghost use Rattle.cal_program.specs.ReadAll.{EndsReading};

use crate::source::{Failed, Source};
use std::alloc::Global;

/// A script has at most this many bytes.
pub const SCRIPT_LIMIT: usize = 16_777_216;

/// How many bytes are asked for at a time.
const BLOCK_SIZE: usize = 8192;

/// Why a script wasn't read to its end.
#[derive(Clone, Copy, Debug, PartialEq, Eq)]
pub enum ReadError {
    /// The source failed.
    Fault,
    /// The source has more bytes than a script may have.
    TooLong,
    /// Memory ran out.
    NoMemory,
}

/// All bytes that the source has left, up to the limit. Reading stops at the first fault, and after the first byte
/// past the limit.
pub fn read_script<R: Source>(alloc: Global, source: &mut R) -> Result<Vec<u8>, ReadError>
    ensures reading { EndsReading (R.state source.old) (R.state source.new) result }
{
    let mut block = [0; BLOCK_SIZE];
    read_blocks(alloc, source, &mut block)
}

/// The same by blocks of this size.
fn read_blocks<R: Source>(
    alloc: Global,
    source: &mut R,
    block: &mut [u8],
) -> Result<Vec<u8>, ReadError>
    requires { 0 < length block.old }
    ensures { EndsReading (R.state source.old) (R.state source.new) result }
{
    let mut bytes = Vec::new(alloc);
    while bytes.len() <= SCRIPT_LIMIT {
        let room = block.len().min(SCRIPT_LIMIT + 1 - bytes.len());
        let Ok(count) = take_front(source, block, room) else {
            return Err(ReadError::Fault);
        };
        if count == 0 {
            return Ok(bytes);
        }
        let Ok(()) = bytes.extend_from_slice(&block[..count]) else {
            return Err(ReadError::NoMemory);
        };
    }
    Err(ReadError::TooLong)
}

/// Takes bytes into the front of a block, as many as there is room for.
fn take_front<R: Source>(source: &mut R, block: &mut [u8], room: usize) -> Result<usize, Failed>
    requires some { 0 < room }
    requires within { room ≤ length block.old }
    ensures count { IfOk result (λ count. count ≤ room) }
    ensures taken { IfOk result (λ count. Takes (R.state source.old) (R.state source.new) (take count block.new)) }
    ensures end { IfOk result (λ count. count ≡ 0 → IsAtEnd (R.state source.new).left) }
    ensures failed { OnErr result (TakesNothing (R.state source.old) (R.state source.new)) }
{
    source.take(&mut block[..room])
}
