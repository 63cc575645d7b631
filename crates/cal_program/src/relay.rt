//! The relay: one worker sends offsets over a threaded connection, and another receives them and gives them back.
ghost use Rattle.std.specs.Prelude.{◌≡◌, ◌<◌, ◌^◌, map, string_bytes, IfErr, IfOk, OnErr};
ghost use Rattle.cal_connection.specs.declared.errors.ZeroCopyCreationError.TheVariants.{NoMemory};
ghost use Rattle.cal_shared.specs.Port.{pair_of_receiver, pair_of_sender};
ghost use Rattle.cal_program.specs.Relay.{EndsRelay, EndsRelayOf, EndsUsage, IsRelayForm, IsRelayed, relay_form, relay_settings, with_counts, without_counts};
ghost use Rattle.cal_program.specs.Workers.{HasEnded, HasGivenBackAll, HasSeenEnd, HasSent};

use crate::gate::Gate;
use crate::print::print_outcome;
use crate::print_relay::print_relay;
use crate::relay_form::{RelayForm, relay_form};
use crate::sink::Sink;
use crate::status::{Outcome, Status};
use crate::workers::{receive_all, send_all};
use cal_connection::ZeroCopyCreationError;
use cal_shared::{PortRest, SharedReceiver, SharedSender, rest, shared_pair};
use cal_transport::Replies;
use std::alloc::Global;
use std::sync::Wait;
use std::thread::{Threads, join};

/// How a relay ended, and what went over its channel; no number where the workers didn't run.
#[derive(Debug, Clone, Copy, PartialEq, Eq)]
pub struct RelayOutcome {
    /// How it ended.
    pub status: Status,
    /// How many offsets were sent.
    pub sent: usize,
    /// How many of them were received.
    pub received: usize,
    /// How many of them overflowed, and so came back to the sender.
    pub returned: usize,
    /// How many of them are still queued.
    pub left: usize,
}

/// Runs a relay. With the words `relay BUFFER COUNT` one worker sends COUNT offsets over a channel that queues BUFFER
/// of them and overflows, and another receives them and gives them back, until it sees the channel closed and nothing
/// left in it. Each works in a thread of its own; where no thread can be made, the caller does its work. The line with
/// the counts is put into the sink. With other words the usage line is.
pub fn run_relay<R: Threads + Wait + Sync, G: Gate + Sync, W: Sink>(
    rt: &R,
    alloc: Global,
    words: &[String],
    gate: &G,
    sink: &mut W,
) -> RelayOutcome
    ensures outcome { EndsRelay (relay_form (map string_bytes words.now)) (W.state sink.old) (W.state sink.new) result }
{
    match relay_form(words) {
        Some(form) => run_form(rt, alloc, form, gate, sink),
        None => refused(alloc, sink),
    }
}

/// Runs a relay of this form.
fn run_form<R: Threads + Wait + Sync, G: Gate + Sync, W: Sink>(
    rt: &R,
    alloc: Global,
    form: RelayForm,
    gate: &G,
    sink: &mut W,
) -> RelayOutcome
    requires form { IsRelayForm form }
    ensures ends { EndsRelayOf form (W.state sink.old) (W.state sink.new) result }
{
    let Ok(all) = relay(rt, alloc, form, gate) else {
        return without_counts(Status::NoMemory);
    };
    match print_relay(&all, sink) {
        Ok(()) => with_counts(Status::Done, &all),
        Err(_) => with_counts(Status::WriteFault, &all),
    }
}

/// Runs both workers, and counts what went over the channel once both are done. The error says that there was no memory
/// for the connection.
fn relay<R: Threads + Wait + Sync, G: Gate + Sync>(
    rt: &R,
    alloc: Global,
    form: RelayForm,
    gate: &G,
) -> Result<PortRest, ZeroCopyCreationError>
    requires form { IsRelayForm form }
    ensures relayed { IfOk result (λ all. IsRelayed form all.sent all.received all.returned all.left) }
    ensures error { IfErr result (λ error. error ≡ NoMemory) }
{
    let (sender, receiver) = shared_pair(alloc, &form.port_settings())?;
    // The receiver is named first: where no thread can be made, `join` runs its second closure and then its first.
    let (receiver, sender) = join(
        rt,
        || -> SharedReceiver
            requires channel { 0 < receiver.settings.number_of_channels }
            requires borrow { receiver.settings.max_borrowed_samples ≡ 1 }
            requires given_back { HasGivenBackAll receiver }
            ensures given_back { HasGivenBackAll result }
            ensures end { HasSeenEnd result }
            ensures pair { pair_of_receiver result ≡ pair_of_receiver receiver }
        { receive_all(rt, receiver, gate) },
        || -> SharedSender
            requires settings { sender.settings ≡ relay_settings form }
            requires few { form.count < 2 ^ 32 }
            requires none_sent { HasSent 0 sender }
            ensures ended { HasEnded form.count result }
            ensures pair { pair_of_sender result ≡ pair_of_sender sender }
        { send_all(rt, sender, form, gate) },
    );
    Ok(rest(sender, receiver))
}

/// Puts the line that says how the program is called.
fn refused<W: Sink>(alloc: Global, sink: &mut W) -> RelayOutcome
    ensures usage { EndsUsage (W.state sink.old) (W.state sink.new) result }
{
    let usage = Outcome {
        status: Status::Usage,
        replies: Replies::empty(alloc),
        end: None,
    };
    match print_outcome(None, &usage, sink) {
        Ok(()) => without_counts(Status::Usage),
        Err(_) => without_counts(Status::WriteFault),
    }
}

/// How a relay ended whose workers ran.
fn with_counts(status: Status, all: &PortRest) -> RelayOutcome
    ensures value { result ≡ with_counts status all.now }
{
    RelayOutcome {
        status,
        sent: all.sent,
        received: all.received,
        returned: all.returned,
        left: all.left,
    }
}

/// How a relay ended in which the workers didn't run.
fn without_counts(status: Status) -> RelayOutcome
    ensures value { result ≡ without_counts status }
{
    RelayOutcome {
        status,
        sent: 0,
        received: 0,
        returned: 0,
        left: 0,
    }
}
