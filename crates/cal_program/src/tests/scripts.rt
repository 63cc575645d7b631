//! Whole scripts, with the lines that they owe. `;` stands for a line's end. A due line that ends in `*` holds for
//! every place, since a loan may take any free bucket. Where a place is given and another bucket was free as well, it
//! is the one that today's pool chooses.

use crate::run_program::run_program;
use crate::status::Status;
use crate::tests::memory::{MemorySink, MemorySource};
use crate::tests::words_of;
use std::alloc::AllocGlobal;
use std::process::Abort;
use std::test::Fail;

/// Whether a line is as it is due.
fn is_due(line: &str, due: &str) -> bool {
    match due.strip_suffix('*') {
        Some(start) => line.starts_with(start),
        None => line == due,
    }
}

/// The segment and the place that a loan's reply told of a chunk.
fn slot_of(text: &str, chunk: usize) -> Option<(usize, usize)> {
    for line in text.lines() {
        let Some(told) = line.strip_prefix("loaned ") else {
            continue;
        };
        let Some((name, slot)) = told.split_once(' ') else {
            continue;
        };
        if name.parse() == Ok(chunk) {
            let (segment, place) = slot.split_once(':')?;
            return Some((segment.parse().ok()?, place.parse().ok()?));
        }
    }
    None
}

/// Runs a script, and asserts that it ends well, that each reply is as it is due, and that these are told as in
/// transit, each a channel and a chunk, by channel, segment and place.
pub(super) fn assert_lines(
    rt: &(impl Abort + AllocGlobal),
    script: &str,
    due: &str,
    in_transit: &[(usize, usize)],
) -> Result<(), Fail> {
    let mut bytes = Vec::new(rt.alloc());
    for byte in script.bytes() {
        bytes.push(if byte == b';' { b'\n' } else { byte })?;
    }
    let words = words_of(rt.alloc(), "run")?;
    let mut source = MemorySource::new(bytes.as_slice(), &[]);
    let mut sink = MemorySink::new(rt.alloc(), &[]);
    let outcome = run_program(rt.alloc(), words.as_slice(), &mut source, &mut sink);
    assert!(rt; outcome.status == Status::Done);
    let text = str::from_utf8(sink.as_slice())
        .ok()
        .ok_or("the text is UTF-8")?;
    assert_replies(rt, text, due);
    assert_transit(rt, text, due.split(';').count(), in_transit)
}

/// Asserts that the first lines are as they are due.
fn assert_replies(rt: &impl Abort, text: &str, due: &str) {
    assert!(rt; text.lines().count() >= due.split(';').count());
    for (line, due) in text.lines().zip(due.split(';')) {
        assert!(rt; is_due(line, due), "{line} in place of {due}");
    }
}

/// Asserts that the lines after the replies tell these chunks, by channel, segment and place.
fn assert_transit(
    rt: &(impl Abort + AllocGlobal),
    text: &str,
    replies: usize,
    in_transit: &[(usize, usize)],
) -> Result<(), Fail> {
    let mut slots = Vec::new(rt.alloc());
    for (channel, chunk) in in_transit {
        let (segment, place) = slot_of(text, *chunk).ok_or("a chunk in transit was loaned")?;
        slots.push((*channel, segment, place, *chunk))?;
    }
    slots.sort_unstable();
    assert!(rt; text.lines().count() == replies.saturating_add(slots.len()));
    for (line, (channel, segment, place, chunk)) in text.lines().skip(replies).zip(&slots) {
        let due = format!(in rt.alloc(); "transit {channel} {chunk} {segment}:{place}")?;
        assert!(rt; line == due.as_str());
    }
    Ok(())
}
