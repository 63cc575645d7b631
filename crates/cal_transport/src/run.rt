//! A whole run: a transport is opened, each command is served in turn, and what is in transit then is told.

ghost use Rattle.std.specs.Prelude.{ℕ, ◌≡◌, ◌+◌, ◌<◌, OnOk, OnErr, IfOk, IfErr, None, Some, Err, IsSomeAnd};
ghost use Rattle.cal_transport.specs.Settings.{create_cause};
ghost use Rattle.cal_transport.specs.Capacity.{HasCapacity};
ghost use Rattle.cal_transport.specs.ChunkEntry.{AreBelow};
ghost use Rattle.cal_transport.specs.FillList.{AreFilled, AreServed, completed_after, fill_list};
ghost use Rattle.cal_transport.specs.Room.{TakesRoomOfOne};
ghost use Rattle.cal_transport.specs.Ledger.{Ledger};
ghost use Rattle.cal_transport.specs.Run.{IsRun};
ghost use Rattle.cal_transport.specs.Serve.{reply_to, reply_at_end};
ghost use Rattle.cal_transport.specs.Served.{RunsOut, StandsAfter, IsNotRun, IsLeftByError};
ghost use Rattle.cal_transport.specs.Standing.{StandsFor, Does, DoesAnywhere};

use crate::bytes::Bytes;
use crate::command::Command;
use crate::replies::Replies;
use crate::reply::{Refusal, Reply};
use crate::settings::{CreateCause, Settings};
use crate::transport::Transport;
use crate::transport::loaning::LoanError;
use crate::transport::making::OpenError;
use std::alloc::{AllocError, Global};
use thiserror::Error;

/// Why there is no whole run.
#[derive(Debug, Drop, Error)]
pub enum RunError {
    /// No transport can be made with the settings. No memory was taken.
    #[error("RunError::Create")]
    Create(CreateCause),
    /// Memory ran out. The replies answer the commands before.
    #[error("RunError::NoMemory")]
    NoMemory(Replies<Reply>),
}

/// Runs the commands over a transport with these settings. There is one reply for each command, and then one for
/// each chunk in transit. `end` is the transport that ran the commands then, also where memory ran out after a reply;
/// else there is none.
pub fn run_transport(
    alloc: Global,
    settings: &Settings,
    commands: &[Command],
    end: &mut Option<Transport>,
) -> Result<Replies<Reply>, RunError>
    requires none { end.old ≡ None }
    ensures run { IfOk result (λ replies. IsRun settings.now commands.now replies.items) }
    ensures made { OnOk result (create_cause settings.now ≡ None) }
    ensures create { (cause : CreateCause) → create_cause settings.now ≡ Some cause →
        result ≡ Err (RunError.Create cause) }
    ensures error { IfErr result (IsNotRun settings.now commands.now) }
    ensures end { IfOk result (λ replies. IsSomeAnd end.new (StandsAfter settings.now commands.now replies.items)) }
    ensures left { IfErr result (λ error. IsLeftByError settings.now commands.now error end.new) }
    ensures capacity { IfOk result (λ replies. HasCapacity commands.now replies.items) }
    ensures filled { IfOk result (λ replies. (buffer borrow : ℕ) → AreFilled settings.now buffer borrow →
        commands.now ≡ fill_list buffer borrow → AreServed (buffer + borrow + 1) commands.now replies.items) }
    ensures completed { IfOk result (λ replies. (buffer borrow : ℕ) → AreFilled settings.now buffer borrow →
        commands.now ≡ fill_list buffer borrow →
        completed_after settings.now commands.now replies.items ≡ buffer + borrow + 1) }
{
    let mut transport = match Transport::open(alloc, settings, commands.len()) {
        Ok(transport) => transport,
        Err(OpenError::Create(cause)) => return Err(RunError::Create(cause)),
        Err(OpenError::NoMemory) => return Err(RunError::NoMemory(Replies::empty(alloc))),
    };
    // a command puts one chunk in transit at most
    let room = commands.len() + commands.len();
    let Ok(mut replies) = Replies::new(alloc, room) else {
        return Err(RunError::NoMemory(Replies::empty(alloc)));
    };
    for (index, command) in commands.iter().enumerate() {
        match transport.serve(alloc, index + 1, command) {
            Ok(reply) => replies.push(reply),
            Err(_) => {
                if replies.len() == 0 {
                    return Err(RunError::NoMemory(replies));
                }
                *end = Some(transport);
                return Err(RunError::NoMemory(replies));
            }
        }
    }
    transport.transit(&mut replies);
    *end = Some(transport);
    Ok(replies)
}

impl Transport {
    /// Answers one command. A chunk that it loans is named by the command's place, which is greater than all names. The
    /// error is that memory ran out, which a loan that needs a segment can meet, and the bytes of a read; the transport
    /// stands for what it stood for then.
    fn serve(&mut self, alloc: Global, place: usize, command: &Command) -> Result<Reply, AllocError>
        requires below { AreBelow self.old.entries place }
        requires room { 0 < self.old.spare }
        ensures served { IfOk result (λ reply. Does self.old place command.now reply self.new) }
        ensures room { OnOk result (TakesRoomOfOne self.old self.new) }
        ensures error { OnErr result (RunsOut self.old command.now) }
        ensures same { OnErr result ((l : Ledger) → StandsFor self.old l → StandsFor self.new l) }
    {
        match command {
            Command::Loan { size, alignment } => self.answer_loan(alloc, place, *size, *alignment),
            Command::Write { chunk, at, bytes } => Ok(reply_at_end(
                self.write(*chunk, *at, bytes.as_slice()),
                Reply::Written,
            )),
            Command::Send { channel, chunk } => {
                Ok(reply_to(self.send(*channel, *chunk).map(Reply::Sent)))
            }
            Command::Receive { channel } => {
                Ok(reply_to(self.receive(*channel).map(Reply::Received)))
            }
            Command::Read {
                channel,
                chunk,
                at,
                length,
            } => self.show(alloc, *channel, *chunk, *at, *length),
            Command::Release { channel, chunk } => Ok(reply_at_end(
                self.release(*channel, *chunk),
                Reply::Released,
            )),
            Command::Reclaim { channel } => {
                Ok(reply_to(self.reclaim(*channel).map(Reply::Reclaimed)))
            }
            Command::Discard { chunk } => {
                Ok(reply_at_end(self.discard(*chunk), Reply::Discarded))
            }
            Command::Count => Ok(Reply::Counted(self.count())),
        }
    }

    /// Answers a loan.
    fn answer_loan(
        &mut self,
        alloc: Global,
        place: usize,
        size: usize,
        alignment: usize,
    ) -> Result<Reply, AllocError>
        requires below { AreBelow self.old.entries place }
        requires room { 0 < self.old.spare }
        ensures served { IfOk result (λ reply. Does self.old place (Command.Loan size alignment) reply self.new) }
        ensures room { OnOk result (TakesRoomOfOne self.old self.new) }
        ensures error { OnErr result (RunsOut self.old (Command.Loan size alignment)) }
        ensures same { OnErr result ((l : Ledger) → StandsFor self.old l → StandsFor self.new l) }
    {
        match self.loan(alloc, place, size, alignment) {
            Ok(slot) => Ok(Reply::Loaned(slot)),
            Err(LoanError::Refused(refusal)) => Ok(Reply::Refused(refusal)),
            Err(LoanError::NoMemory) => Err(AllocError),
        }
    }

    /// Answers a read with a copy of the chunk's bytes.
    fn show(
        &self,
        alloc: Global,
        channel: usize,
        chunk: usize,
        at: usize,
        length: usize,
    ) -> Result<Reply, AllocError>
        ensures shown { IfOk result (λ reply.
            DoesAnywhere self.now (Command.Read channel chunk at length) reply self.now) }
        ensures error { OnErr result (RunsOut self.now (Command.Read channel chunk at length)) }
    {
        match self.read(channel, chunk, at, length) {
            Err(refusal) => Ok(Reply::Refused(refusal)),
            Ok([]) => Ok(Reply::Shown(Bytes::empty(alloc))),
            Ok(bytes) => Ok(Reply::Shown(Bytes::new(alloc, bytes)?)),
        }
    }
}

/// The reply to a command: what it was answered with, or its refusal.
fn reply_to(answer: Result<Reply, Refusal>) -> Reply
    ensures value { result ≡ reply_to answer }
{
    answer.unwrap_or_else(Reply::Refused)
}

/// The reply to a command that tells nothing but that it was done, or its refusal.
fn reply_at_end(answer: Result<(), Refusal>, reply: Reply) -> Reply
    ensures value { result ≡ reply_at_end answer reply }
{
    match answer {
        Ok(()) => reply,
        Err(refusal) => Reply::Refused(refusal),
    }
}
