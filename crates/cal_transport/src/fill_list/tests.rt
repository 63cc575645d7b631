//! What no clause says: that the list is made and run with ample memory. The smallest one is written out by hand.

ghost use Rattle.std.specs.Prelude.{◌+◌, ◌<◌, ◌≤◌, ◌^◌};

use super::fill_commands;
use crate::command::Command;
use crate::replies::Replies;
use crate::reply::Reply;
use crate::run::run_transport;
use crate::settings::Settings;
use cal_alloc::AllocationStrategy;
use std::alloc::Global;
use std::test::Fail;

/// A send on channel 0.
fn send(chunk: usize) -> Command {
    Command::Send { channel: 0, chunk }
}

/// A release on channel 0.
fn release(chunk: usize) -> Command {
    Command::Release { channel: 0, chunk }
}

/// A loan of one byte.
fn loan() -> Command {
    Command::Loan {
        size: 1,
        alignment: 1,
    }
}

#[test]
fn the_smallest_list(rt: HostRuntime) -> Result<(), Fail> {
    let commands = fill_commands(rt.alloc(), 1, 1)?;
    let due = [
        loan(),
        loan(),
        loan(),
        send(1),
        Command::Receive { channel: 0 },
        Command::Reclaim { channel: 0 },
        send(2),
        Command::Reclaim { channel: 0 },
        release(1),
        Command::Receive { channel: 0 },
        send(3),
        release(2),
        Command::Receive { channel: 0 },
        release(3),
    ];
    assert_eq!(rt; commands.as_slice(), due.as_slice());
    Ok(())
}

/// Nine buckets of eight bytes, and one channel of these limits.
fn settings_of(buffer: usize, borrow: usize) -> Settings {
    Settings {
        size: 8,
        alignment: 8,
        count: 9,
        strategy: AllocationStrategy::Static,
        buffer,
        borrow,
        overflow: false,
        samples: 9,
        segments: 1,
        channels: 1,
    }
}

/// Runs the fill list of these limits.
fn run_fill_list(alloc: Global, buffer: usize, borrow: usize) -> Result<Replies<Reply>, Fail>
    requires some_buffer { 1 ≤ buffer }
    requires some_borrow { 1 ≤ borrow }
    requires small { buffer + borrow < 2 ^ 31 }
{
    let commands = fill_commands(alloc, buffer, borrow)?;
    match run_transport(
        alloc,
        &settings_of(buffer, borrow),
        commands.as_slice(),
        &mut None,
    ) {
        Ok(replies) => Ok(replies),
        Err(_) => Err("the run is whole".into()),
    }
}

#[test]
fn no_small_list_is_refused(rt: HostRuntime) -> Result<(), Fail> {
    for buffer in 1..5 {
        for borrow in 1..5 {
            let replies = run_fill_list(rt.alloc(), buffer, borrow)?;
            // A loan and a transit line for each place of the completion queue, four commands for each place of the
            // buffer and of the borrow limit, and three for the exchange.
            let due = 2 * (buffer + borrow + 1) + 4 * (buffer + borrow) + 3;
            assert_eq!(rt; replies.len(), due);
            for place in 0..replies.len() {
                assert!(rt; !matches!(replies.get(place), Some(Reply::Refused(_))));
            }
        }
    }
    Ok(())
}
