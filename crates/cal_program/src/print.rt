//! Prints replies and statuses.

ghost use Rattle.std.specs.Prelude.{◌≡◌, ◌<◌, ◌++◌, OnOk, OnErr};
ghost use Rattle.cal_program.specs.Printing.{Follows};
ghost use Rattle.cal_program.specs.Streams.{PutsAll, FailsWithin};
ghost use Rattle.cal_program.specs.ReplyText.{slot_text, count_text, refusal_name, reply_text, line, reply_lines};
ghost use Rattle.cal_program.specs.Summary.{summary_text};
ghost use Rattle.cal_program.specs.Outcome.{cause_name, run_text, status_text, CanBeTold};

use crate::output_buffer::OutputBuffer;
use crate::request::Request;
use crate::sink::Sink;
use crate::source::Failed;
use crate::status::{Outcome, Status};
use crate::summary::Summary;
use cal_transport::{Count, CreateCause, Refusal, Replies, Reply, Slot};

/// Puts the text of an outcome: of a run that is done its replies, and of a made run what they come to. It takes no
/// memory, and calls the sink for each full buffer and at the end. It calls it no more once it failed.
pub fn print_outcome<S: Sink>(
    request: Option<Request>,
    outcome: &Outcome,
    sink: &mut S,
) -> Result<(), Failed>
    requires told { CanBeTold request outcome.now.status outcome.now.replies.items }
    ensures ok { OnOk result (PutsAll (S.state sink.old) (S.state sink.new)
        (status_text request outcome.now.status outcome.now.replies.items)) }
    ensures failed { OnErr result (FailsWithin (S.state sink.old) (S.state sink.new)
        (status_text request outcome.now.status outcome.now.replies.items)) }
{
    let mut buffer = OutputBuffer::new();
    print_status(&mut buffer, sink, request, outcome.status, &outcome.replies);
    buffer.flush(sink);
    if buffer.has_failed() {
        return Err(Failed);
    }
    Ok(())
}

fn print_status<S: Sink>(
    buffer: &mut OutputBuffer,
    sink: &mut S,
    request: Option<Request>,
    status: Status,
    replies: &Replies<Reply>,
)
    requires { CanBeTold request status replies.now.items }
    ensures { Follows buffer.old (S.state sink.old) buffer.new (S.state sink.new)
        (status_text request status replies.now.items) }
{
    match status {
        Status::Done => print_run(buffer, sink, request, replies),
        Status::BadScript { line } => {
            buffer.text(sink, b"line ");
            buffer.number(sink, line);
            buffer.text(sink, b"\n");
        }
        Status::NotCreated { cause } => {
            buffer.text(sink, b"create ");
            buffer.text(sink, cause_name(cause));
            buffer.text(sink, b"\n");
        }
        Status::ReadFault | Status::WriteFault | Status::NoMemory => {}
        Status::Usage => buffer.text(
            sink,
            b"usage: run, make NUMBER ROUNDS, relay BUFFER COUNT\n",
        ),
        Status::TooLong => buffer.text(sink, b"too long\n"),
    }
}

/// A run that is done: one line where it was made, and else a line for each reply.
fn print_run<S: Sink>(
    buffer: &mut OutputBuffer,
    sink: &mut S,
    request: Option<Request>,
    replies: &Replies<Reply>,
)
    requires { CanBeTold request Status.Done replies.now.items }
    ensures { Follows buffer.old (S.state sink.old) buffer.new (S.state sink.new)
        (run_text request replies.now.items) }
{
    match request {
        Some(Request::Make { .. }) => print_summary(buffer, sink, Summary::of(replies)),
        Some(Request::Run) | None => print_replies(buffer, sink, replies),
    }
}

fn print_summary<S: Sink>(buffer: &mut OutputBuffer, sink: &mut S, summary: Summary)
    ensures { Follows buffer.old (S.state sink.old) buffer.new (S.state sink.new) (line (summary_text summary)) }
{
    buffer.text(sink, b"replies ");
    buffer.number(sink, summary.answered);
    buffer.text(sink, b" refused ");
    buffer.number(sink, summary.refused);
    buffer.text(sink, b" transit ");
    buffer.number(sink, summary.transit);
    buffer.text(sink, b" sum ");
    buffer.number(sink, summary.sum);
    buffer.text(sink, b"\n");
}

fn print_replies<S: Sink>(buffer: &mut OutputBuffer, sink: &mut S, replies: &Replies<Reply>)
    ensures { Follows buffer.old (S.state sink.old) buffer.new (S.state sink.new) (reply_lines replies.now.items) }
{
    for place in 0..replies.len() {
        let reply = replies.get(place).unwrap();
        print_reply(buffer, sink, reply);
        buffer.text(sink, b"\n");
    }
}

fn print_reply<S: Sink>(buffer: &mut OutputBuffer, sink: &mut S, reply: &Reply)
    ensures { Follows buffer.old (S.state sink.old) buffer.new (S.state sink.new) (reply_text reply.now) }
{
    match reply {
        Reply::Loaned(slot) => print_with_slot(buffer, sink, b"loaned ", slot),
        Reply::Written => buffer.text(sink, b"written"),
        Reply::Sent(None) => buffer.text(sink, b"sent"),
        Reply::Sent(Some(slot)) => print_with_slot(buffer, sink, b"sent back ", slot),
        Reply::Received(None) => buffer.text(sink, b"received none"),
        Reply::Received(Some(slot)) => print_with_slot(buffer, sink, b"received ", slot),
        Reply::Shown(bytes) => {
            buffer.text(sink, b"bytes ");
            buffer.hex(sink, bytes.as_slice());
        }
        Reply::Released => buffer.text(sink, b"released"),
        Reply::Reclaimed(None) => buffer.text(sink, b"reclaimed none"),
        Reply::Reclaimed(Some(slot)) => print_with_slot(buffer, sink, b"reclaimed ", slot),
        Reply::Discarded => buffer.text(sink, b"discarded"),
        Reply::Counted(count) => {
            buffer.text(sink, b"counted ");
            print_count(buffer, sink, count);
        }
        Reply::Refused(refusal) => {
            buffer.text(sink, b"refused ");
            buffer.text(sink, refusal_name(*refusal));
        }
        Reply::Transit { channel, slot } => {
            buffer.text(sink, b"transit ");
            buffer.number(sink, *channel);
            print_with_slot(buffer, sink, b" ", slot);
        }
    }
}

/// A word, and a slot: its chunk, and its segment and place with a colon between.
fn print_with_slot<S: Sink>(buffer: &mut OutputBuffer, sink: &mut S, word: &[u8], slot: &Slot)
    ensures { Follows buffer.old (S.state sink.old) buffer.new (S.state sink.new) (word.now ++ slot_text slot.now) }
{
    buffer.text(sink, word);
    buffer.number(sink, slot.chunk);
    buffer.text(sink, b" ");
    buffer.number(sink, slot.segment as usize);
    buffer.text(sink, b":");
    buffer.number(sink, slot.place);
}

fn print_count<S: Sink>(buffer: &mut OutputBuffer, sink: &mut S, count: &Count)
    ensures { Follows buffer.old (S.state sink.old) buffer.new (S.state sink.new) (count_text count.now) }
{
    buffer.number(sink, count.active);
    buffer.text(sink, b" ");
    buffer.number(sink, count.mapped);
    buffer.text(sink, b" ");
    buffer.number(sink, count.current as usize);
    buffer.text(sink, b" ");
    buffer.number(sink, count.size);
    buffer.text(sink, b" ");
    buffer.number(sink, count.buckets as usize);
}

fn refusal_name(refusal: Refusal) -> &'static [u8]
    ensures { result.now ≡ refusal_name refusal }
{
    match refusal {
        Refusal::BadLayout => b"BadLayout",
        Refusal::ExceedsMaxSupportedAlignment => b"ExceedsMaxSupportedAlignment",
        Refusal::SizeTooLarge => b"SizeTooLarge",
        Refusal::OutOfMemory => b"OutOfMemory",
        Refusal::MaxReallocationsReached => b"MaxReallocationsReached",
        Refusal::SizeOutOfRange => b"SizeOutOfRange",
        Refusal::InternalError => b"InternalError",
        Refusal::NotLoaned => b"NotLoaned",
        Refusal::WriteAfterSend => b"WriteAfterSend",
        Refusal::OutsideChunk => b"OutsideChunk",
        Refusal::OutsideConnection => b"OutsideConnection",
        Refusal::AlreadyInTransit => b"AlreadyInTransit",
        Refusal::ReceiveBufferFull => b"ReceiveBufferFull",
        Refusal::ReceiveWouldExceedMaxBorrowValue => b"ReceiveWouldExceedMaxBorrowValue",
        Refusal::NotBorrowed => b"NotBorrowed",
        Refusal::RetrieveBufferFull => b"RetrieveBufferFull",
    }
}

fn cause_name(cause: CreateCause) -> &'static [u8]
    ensures { result.now ≡ cause_name cause }
{
    match cause {
        CreateCause::BadLayout => b"BadLayout",
        CreateCause::SizeOutOfRange => b"SizeOutOfRange",
        CreateCause::SizeIsZero => b"SizeIsZero",
        CreateCause::InternalError => b"InternalError",
    }
}
