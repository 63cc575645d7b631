//! A run of the program: what the words ask for, over a source and a sink.

ghost use Rattle.std.specs.Prelude.{◌≡◌, ◌≢◌, [], map, string_bytes, Some, None};
ghost use Rattle.cal_program.specs.MadeScript.{made_script};
ghost use Rattle.cal_program.specs.Request.{request_of, HasFewRounds};
ghost use Rattle.cal_program.specs.Outcome.{IsOutcomeOfScript, IsOutcomeOfBytes, IsDueOfRun, IsDue, EndsDue, IsExact, AreDueReplies, run_text};
ghost use Rattle.cal_program.specs.Streams.{PutsAll};

use crate::made_script::made_script;
use crate::print::print_outcome;
use crate::read::{ReadError, read_script};
use crate::request::{Request, request_of};
use crate::script::{ParseError, Script};
use crate::sink::Sink;
use crate::source::Source;
use crate::status::{Outcome, Status};
use cal_transport::{Replies, RunError, run_transport};
use std::alloc::Global;

/// Runs the program. With the one word `run` it reads the source to its end, runs the script that it has, and puts the
/// replies into the sink. With `make NUMBER ROUNDS` it leaves the source alone, runs the script that is made of the two
/// numbers, and puts one line into the sink that says what the replies come to. Where it doesn't come so far, the
/// status says why, and its text is put into the sink.
pub fn run_program<R: Source, W: Sink>(
    alloc: Global,
    words: &[String],
    source: &mut R,
    sink: &mut W,
) -> Outcome
    ensures outcome { EndsDue (request_of (map string_bytes words.now)) (R.state source.old) (R.state source.new)
        (W.state sink.old) (W.state sink.new) result.status result.replies.items result.end }

    // A run that is done wrote the text of its replies, and a made run their summary. They are a run of the ledger, and
    // the transport that is left is in the state to which they lead.
    ensures done { result.status ≡ Status.Done → AreDueReplies (request_of (map string_bytes words.now))
        (R.state source.old).left result.replies.items result.end }
    ensures written { result.status ≡ Status.Done → PutsAll (W.state sink.old) (W.state sink.new)
        (run_text (request_of (map string_bytes words.now)) result.replies.items) }

    // Only a run touches the source.
    ensures unread { request_of (map string_bytes words.now) ≢ Some Request.Run →
        R.state source.new ≡ R.state source.old }

    // Each status comes exactly where it is due, but for faults and out of memory. So a valid script is done, and each
    // made one, unless memory runs out or the source or the sink fails.
    ensures exact { IsExact (request_of (map string_bytes words.now)) (R.state source.old) (R.state source.new)
        (W.state sink.old) (W.state sink.new) result.status }
{
    let request = request_of(words);
    run_and_print(alloc, request, source, sink)
}

/// The same of what was asked for, by what is due and written.
fn run_and_print<R: Source, W: Sink>(
    alloc: Global,
    request: Option<Request>,
    source: &mut R,
    sink: &mut W,
) -> Outcome
    requires few { HasFewRounds request }
    ensures ends { EndsDue request (R.state source.old) (R.state source.new)
        (W.state sink.old) (W.state sink.new) result.status result.replies.items result.end }
{
    let due = due_outcome(alloc, request, source);
    match print_outcome(request, &due, sink) {
        Ok(()) => due,
        Err(_) => Outcome {
            status: Status::WriteFault,
            replies: due.replies,
            end: due.end,
        },
    }
}

/// What is due to be written.
fn due_outcome<R: Source>(alloc: Global, request: Option<Request>, source: &mut R) -> Outcome
    ensures { IsDue request (R.state source.old) (R.state source.new)
        result.status result.replies.items result.end }
{
    match request {
        None => without_replies(alloc, Status::Usage),
        Some(Request::Run) => outcome_of_source(alloc, source),
        Some(Request::Make { number, rounds }) => outcome_of_made_script(alloc, number, rounds),
    }
}

/// What is due for the script that a source has.
fn outcome_of_source<R: Source>(alloc: Global, source: &mut R) -> Outcome
    ensures { IsDueOfRun (R.state source.old) (R.state source.new)
        result.status result.replies.items result.end }
{
    match read_script(alloc, source) {
        Ok(bytes) => outcome_of_bytes(alloc, bytes.as_slice()),
        Err(ReadError::Fault) => without_replies(alloc, Status::ReadFault),
        Err(ReadError::TooLong) => without_replies(alloc, Status::TooLong),
        Err(ReadError::NoMemory) => without_replies(alloc, Status::NoMemory),
    }
}

/// What is due for these bytes.
fn outcome_of_bytes(alloc: Global, bytes: &[u8]) -> Outcome
    ensures { IsOutcomeOfBytes bytes.now result.status result.replies.items result.end }
{
    match Script::parse(alloc, bytes) {
        Ok(script) => outcome_of_script(alloc, &script),
        Err(ParseError::BadLine { line }) => without_replies(alloc, Status::BadScript { line }),
        Err(ParseError::NoMemory) => without_replies(alloc, Status::NoMemory),
    }
}

/// What is due for a made script.
fn outcome_of_made_script(alloc: Global, number: u64, rounds: u16) -> Outcome
    ensures { IsOutcomeOfScript (made_script number rounds) result.status result.replies.items result.end }
{
    match made_script(alloc, number, rounds) {
        Ok(made) => outcome_of_script(alloc, &made),
        Err(_) => without_replies(alloc, Status::NoMemory),
    }
}

/// What is due for a script.
fn outcome_of_script(alloc: Global, script: &Script) -> Outcome
    ensures { IsOutcomeOfScript script.now result.status result.replies.items result.end }
{
    let mut end = None;
    match run_transport(alloc, script.settings(), script.commands(), &mut end) {
        Ok(replies) => Outcome {
            status: Status::Done,
            replies,
            end,
        },
        Err(RunError::NoMemory(replies)) => Outcome {
            status: Status::NoMemory,
            replies,
            end,
        },
        Err(RunError::Create(cause)) => without_replies(alloc, Status::NotCreated { cause }),
    }
}

fn without_replies(alloc: Global, status: Status) -> Outcome
    ensures status { result.status ≡ status }
    ensures none { result.replies.items ≡ [] }
    ensures nothing { result.end ≡ None }
{
    Outcome {
        status,
        replies: Replies::empty(alloc),
        end: None,
    }
}
