//! Made scripts: settings that are always the same, and commands that follow from a number, round by round.

ghost use Rattle.std.specs.Prelude.{◌≡◌, ◌++◌, IfOk, OnOk};
ghost use Rattle.cal_program.specs.MadeScript.{made_settings, next_state, draw_of, way_there, way_back, round_of, made_commands, made_script};

use crate::script::Script;
use cal_alloc::AllocationStrategy;
use cal_transport::{Bytes, Command, Settings};
use std::alloc::{AllocError, Global};

/// What a state is multiplied by.
const MULTIPLIER: u64 = 6_364_136_223_846_793_005;

/// What is added then.
const INCREMENT: u64 = 1_442_695_040_888_963_407;

/// How many commands a round has.
const ROUND_SIZE: usize = 8;

/// What a round is made of.
#[derive(Clone, Copy, Debug, PartialEq, Eq)]
pub struct Draw {
    /// The size of its loan, in bytes.
    pub size: usize,
    /// The byte that is written, sent and read.
    pub byte: u8,
    /// The channel that it is sent on.
    pub channel: usize,
}

impl Draw {
    /// What the upper bits of a state say.
    fn of(state: u64) -> Draw
        ensures value { result ≡ draw_of state }
    {
        let bits = state / (1 << 33);
        Draw {
            size: (1 + bits % 64) as usize,
            byte: (bits / 64 % 256) as u8,
            channel: (bits / 16384 % 2) as usize,
        }
    }
}

/// The script of this number, of so many rounds.
pub fn made_script(alloc: Global, number: u64, rounds: u16) -> Result<Script, AllocError>
    ensures script { IfOk result (λ script. script ≡ made_script number rounds) }
{
    let commands = made_commands(alloc, number, rounds)?;
    Ok(Script::new(made_settings(), commands))
}

/// The settings of every made script.
fn made_settings() -> Settings
    ensures value { result ≡ made_settings }
{
    Settings {
        size: 16,
        alignment: 8,
        count: 32,
        strategy: AllocationStrategy::BestFit,
        buffer: 4,
        borrow: 4,
        overflow: true,
        samples: 32,
        segments: 8,
        channels: 2,
    }
}

/// The commands of so many rounds.
fn made_commands(alloc: Global, number: u64, rounds: u16) -> Result<Vec<Command>, AllocError>
    ensures list { IfOk result (λ commands. commands.items ≡ made_commands number rounds) }
{
    let count = rounds as usize;
    let mut commands = Vec::with_capacity(alloc, ROUND_SIZE * count)?;
    let mut state = number;
    for index in 0..count {
        state = next_state(state);
        let draw = Draw::of(state);
        push_round(alloc, &mut commands, draw, ROUND_SIZE * index + 1)?;
    }
    Ok(commands)
}

/// The state that follows.
fn next_state(state: u64) -> u64
    ensures value { result ≡ next_state state }
{
    state.wrapping_mul(MULTIPLIER).wrapping_add(INCREMENT)
}

/// Appends a round, the first command of which has the chunk's place. After an error a part of it is appended.
fn push_round(
    alloc: Global,
    commands: &mut Vec<Command>,
    draw: Draw,
    chunk: usize,
) -> Result<(), AllocError>
    ensures round { OnOk result (commands.new.items ≡ commands.old.items ++ round_of draw chunk) }
{
    push_way_there(alloc, commands, draw, chunk)?;
    push_way_back(commands, draw, chunk)?;
    Ok(())
}

/// Appends a loan, and the write, the send and the discard of its chunk. After an error a part of them is appended.
fn push_way_there(
    alloc: Global,
    commands: &mut Vec<Command>,
    draw: Draw,
    chunk: usize,
) -> Result<(), AllocError>
    ensures there { OnOk result (commands.new.items ≡ commands.old.items ++ way_there draw chunk) }
{
    let bytes = Bytes::new(alloc, &[draw.byte])?;
    commands.push(Command::Loan {
        size: draw.size,
        alignment: 1,
    })?;
    commands.push(Command::Write {
        chunk,
        at: 0,
        bytes,
    })?;
    commands.push(Command::Send {
        channel: draw.channel,
        chunk,
    })?;
    commands.push(Command::Discard { chunk })?;
    Ok(())
}

/// Appends a receive, a read and a release of the chunk, and a reclaim. After an error a part of them is appended.
fn push_way_back(commands: &mut Vec<Command>, draw: Draw, chunk: usize) -> Result<(), AllocError>
    ensures back { OnOk result (commands.new.items ≡ commands.old.items ++ way_back draw chunk) }
{
    let channel = draw.channel;
    commands.push(Command::Receive { channel })?;
    commands.push(Command::Read {
        channel,
        chunk,
        at: 0,
        length: 1,
    })?;
    commands.push(Command::Release { channel, chunk })?;
    commands.push(Command::Reclaim { channel })?;
    Ok(())
}
