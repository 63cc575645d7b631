//! Commands that fill a completion queue to its last place.

ghost use Rattle.std.specs.Prelude.{◌≡◌, ◌+◌, ◌^◌, ◌<◌, ◌≤◌, ◌++◌, [], ◌∷◌, IfOk, OnOk};
ghost use Rattle.std.specs.List.{flat_map};
ghost use Rattle.cal_transport.specs.FillList.{names_from, fill_list};
ghost use Rattle.cal_transport.specs.Rounds.{round_of};

use crate::command::Command;
use std::alloc::{AllocError, Global};

/// What is asked of one name on channel 0.
#[derive(Clone, Copy)]
enum Round {
    /// A loan of one byte, which gets the name.
    Loan,
    /// A send, a receive and a reclaim.
    SendAndReceive,
    /// A send and a reclaim.
    SendAndLeave,
    /// A release and a receive.
    ReleaseAndReceive,
    /// A release.
    Release,
}

/// The commands that fill the completion queue of channel 0 to its last place, where the transport has this buffer and
/// borrow limit and at least a bucket for each place: as many loans as the queue has places, sends and receives until
/// the receiver has borrowed all that it may, sends until the buffer is full, one chunk exchanged for the last, and
/// releases of all. Every reclaim comes before the first release.
pub fn fill_commands(
    alloc: Global,
    buffer: usize,
    borrow: usize,
) -> Result<Vec<Command>, AllocError>
    requires some_buffer { 1 ≤ buffer }
    requires some_borrow { 1 ≤ borrow }
    requires small { buffer + borrow < 2 ^ 31 }
    ensures list { IfOk result (λ commands. commands.items ≡ fill_list buffer borrow) }
{
    let mut commands = Vec::new(alloc);
    push_rounds(&mut commands, Round::Loan, 1, buffer + borrow + 1)?;
    push_rounds(&mut commands, Round::SendAndReceive, 1, borrow)?;
    push_rounds(&mut commands, Round::SendAndLeave, borrow + 1, buffer)?;
    push_exchange(&mut commands, buffer + borrow + 1)?;
    push_rounds(&mut commands, Round::ReleaseAndReceive, 2, buffer)?;
    push_rounds(&mut commands, Round::Release, buffer + 2, borrow)?;
    Ok(commands)
}

/// Appends the round of each of so many names, from the first on. After an error a part of them is appended.
fn push_rounds(
    commands: &mut Vec<Command>,
    round: Round,
    first: usize,
    count: usize,
) -> Result<(), AllocError>
    requires small { first + count < 2 ^ 33 }
    ensures rounds { OnOk result
        (commands.new.items ≡ commands.old.items ++ flat_map (round_of round) (names_from first count)) }
{
    for index in 0..count {
        push_round(commands, round, first + index)?;
    }
    Ok(())
}

/// Appends the round of a chunk's name. After an error a part of it is appended.
fn push_round(commands: &mut Vec<Command>, round: Round, chunk: usize) -> Result<(), AllocError>
    ensures round { OnOk result (commands.new.items ≡ commands.old.items ++ round_of round chunk) }
{
    let channel = 0;
    match round {
        Round::Loan => commands.push(Command::Loan {
            size: 1,
            alignment: 1,
        })?,
        Round::SendAndReceive => {
            commands.push(Command::Send { channel, chunk })?;
            commands.push(Command::Receive { channel })?;
            commands.push(Command::Reclaim { channel })?;
        }
        Round::SendAndLeave => {
            commands.push(Command::Send { channel, chunk })?;
            commands.push(Command::Reclaim { channel })?;
        }
        Round::ReleaseAndReceive => {
            commands.push(Command::Release { channel, chunk })?;
            commands.push(Command::Receive { channel })?;
        }
        Round::Release => commands.push(Command::Release { channel, chunk })?,
    }
    Ok(())
}

/// Appends the release of the first chunk, a receive and the send of the last. After an error a part of it is appended.
fn push_exchange(commands: &mut Vec<Command>, last: usize) -> Result<(), AllocError>
    ensures exchange { OnOk result (commands.new.items ≡
        commands.old.items ++ (Command.Release 0 1 ∷ Command.Receive 0 ∷ Command.Send 0 last ∷ [])) }
{
    commands.push(Command::Release {
        channel: 0,
        chunk: 1,
    })?;
    commands.push(Command::Receive { channel: 0 })?;
    commands.push(Command::Send {
        channel: 0,
        chunk: last,
    })?;
    Ok(())
}

#[cfg(test)]
mod tests;
