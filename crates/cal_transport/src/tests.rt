//! What no clause says: that calls succeed with ample memory, and the texts of errors.

use crate::{
    Bytes, ChunkRecord, Command, CreateCause, LoanError, OpenError, Refusal, Replies, Reply,
    RunError, Settings, Slot, Transport, run_transport,
};
use cal_alloc::AllocationStrategy;
use cal_names::NamedConcept;
use std::alloc::{AllocError, Global};
use std::process::Abort;
use std::test::Fail;

/// One bucket of eight bytes, and one channel.
const SMALL: Settings = Settings {
    size: 8,
    alignment: 8,
    count: 1,
    strategy: AllocationStrategy::Static,
    buffer: 1,
    borrow: 1,
    overflow: false,
    samples: 1,
    segments: 1,
    channels: 1,
};

/// The chunk that is the first command's, where there is one bucket.
const FIRST: Slot = Slot {
    chunk: 1,
    segment: 0,
    place: 0,
};

fn assert_replies(rt: &impl Abort, replies: &Replies<Reply>, due: &[Reply]) {
    assert_eq!(rt; replies.len(), due.len());
    for (place, reply) in due.iter().enumerate() {
        assert_eq!(rt; replies.get(place), Some(reply));
    }
    assert_eq!(rt; replies.get(due.len()), None);
}

#[test]
fn bytes_of_their_own(rt: HostRuntime) -> Result<(), Fail> {
    let bytes = Bytes::new(rt.alloc(), b"\x7b\0")?;
    assert_eq!(rt; bytes.as_slice(), b"\x7b\0".as_slice());
    assert_eq!(rt; bytes, Bytes::from(Vec::from_slice(rt.alloc(), b"\x7b\0")?));
    assert_ne!(rt; bytes, Bytes::new(rt.alloc(), b"\x7b")?);
    Ok(())
}

#[test]
fn replies_with_room(rt: HostRuntime) -> Result<(), Fail> {
    let mut replies = Replies::new(rt.alloc(), 2)?;
    assert!(rt; replies.spare() >= 2);
    replies.push(7_u8);
    assert_eq!(rt; replies.len(), 1);
    assert_eq!(rt; replies.get(0), Some(&7));
    assert_eq!(rt; replies.get(1), None);
    assert_eq!(rt; Replies::<Reply>::empty(rt.alloc()).len(), 0);
    Ok(())
}

/// A loan of the whole bucket.
fn loan() -> Command {
    Command::Loan {
        size: 8,
        alignment: 8,
    }
}

/// The way of a chunk until the receiver gives it back, and on the way a loan that finds no bucket.
fn way_of_a_chunk(alloc: Global) -> Result<Vec<Command>, AllocError> {
    let bytes = Bytes::new(alloc, b"\x7b\0")?;
    let mut commands = Vec::new(alloc);
    commands.push(loan())?;
    commands.push(Command::Write {
        chunk: 1,
        at: 0,
        bytes,
    })?;
    commands.push(Command::Send {
        channel: 0,
        chunk: 1,
    })?;
    commands.push(Command::Receive { channel: 0 })?;
    commands.push(Command::Read {
        channel: 0,
        chunk: 1,
        at: 0,
        length: 2,
    })?;
    commands.push(loan())?;
    commands.push(Command::Discard { chunk: 1 })?;
    commands.push(Command::Release {
        channel: 0,
        chunk: 1,
    })?;
    Ok(commands)
}

#[test]
fn a_chunk_that_was_given_back_is_in_transit(rt: HostRuntime) -> Result<(), Fail> {
    let commands = way_of_a_chunk(rt.alloc())?;
    let due = [
        Reply::Loaned(FIRST),
        Reply::Written,
        Reply::Sent(None),
        Reply::Received(Some(FIRST)),
        Reply::Shown(Bytes::new(rt.alloc(), b"\x7b\0")?),
        Reply::Refused(Refusal::OutOfMemory),
        Reply::Discarded,
        Reply::Released,
        Reply::Transit {
            channel: 0,
            slot: FIRST,
        },
    ];
    let mut end = None;
    match run_transport(rt.alloc(), &SMALL, commands.as_slice(), &mut end) {
        Ok(replies) => assert_replies(&rt, &replies, &due),
        Err(_) => return Err("the run is whole".into()),
    }
    let transport = end.ok_or("the run leaves its transport")?;
    assert_eq!(rt; transport.in_transit(), 1);
    assert_eq!(rt;
        transport.chunk(1),
        Some(ChunkRecord {
            segment: 0,
            place: 0,
            loaned: false,
            sent: true
        })
    );
    assert_eq!(rt; transport.chunk(6), None);
    Ok(())
}

#[test]
fn a_reclaim_ends_the_way_of_a_chunk(rt: HostRuntime) -> Result<(), Fail> {
    let mut commands = way_of_a_chunk(rt.alloc())?;
    commands.push(Command::Reclaim { channel: 0 })?;
    let mut end = None;
    match run_transport(rt.alloc(), &SMALL, commands.as_slice(), &mut end) {
        Ok(replies) => {
            assert_eq!(rt; replies.len(), 9);
            assert_eq!(rt; replies.get(8), Some(&Reply::Reclaimed(Some(FIRST))));
        }
        Err(_) => return Err("the run is whole".into()),
    }
    let transport = end.ok_or("the run leaves its transport")?;
    assert_eq!(rt; transport.in_transit(), 0);
    assert_eq!(rt; transport.chunk(1), None);
    Ok(())
}

#[test]
fn why_there_is_no_run(rt: HostRuntime) -> Result<(), Fail> {
    let mut end = None;
    let odd = Settings {
        alignment: 3,
        ..SMALL
    };
    let create = run_transport(rt.alloc(), &odd, &[], &mut end);
    assert!(rt; matches!(create, Err(RunError::Create(CreateCause::BadLayout))));
    assert!(rt; end.is_none());
    let large = Settings {
        size: 1 << 56,
        ..SMALL
    };
    let no_memory = run_transport(rt.alloc(), &large, &[], &mut end);
    assert!(rt; matches!(&no_memory, Err(RunError::NoMemory(replies)) if replies.len() == 0));
    assert!(rt; end.is_none());
    Ok(())
}

/// Memory that begins with one bucket of eight bytes and grows.
const GROWING: Settings = Settings {
    strategy: AllocationStrategy::BestFit,
    ..SMALL
};

/// A loan for which the memory grows, by more bytes than any machine has.
fn large_loan() -> Command {
    Command::Loan {
        size: 1 << 55,
        alignment: 8,
    }
}

#[test]
fn a_run_whose_memory_runs_out_leaves_its_transport(rt: HostRuntime) -> Result<(), Fail> {
    let mut end = None;
    let commands = [
        loan(),
        Command::Send {
            channel: 0,
            chunk: 1,
        },
        large_loan(),
        loan(),
    ];
    let due = [Reply::Loaned(FIRST), Reply::Sent(None)];
    match run_transport(rt.alloc(), &GROWING, &commands, &mut end) {
        Err(RunError::NoMemory(replies)) => assert_replies(&rt, &replies, &due),
        _ => return Err("memory runs out".into()),
    }
    let transport = end.ok_or("the run leaves its transport")?;
    assert_eq!(rt; transport.in_transit(), 1);
    let mut lines = Replies::new(rt.alloc(), 1)?;
    transport.transit(&mut lines);
    let line = Reply::Transit {
        channel: 0,
        slot: FIRST,
    };
    assert_replies(&rt, &lines, &[line]);
    Ok(())
}

#[test]
fn a_run_that_answers_nothing_leaves_none(rt: HostRuntime) -> Result<(), Fail> {
    let mut end = None;
    let no_memory = run_transport(rt.alloc(), &GROWING, &[large_loan()], &mut end);
    assert!(rt; matches!(&no_memory, Err(RunError::NoMemory(replies)) if replies.len() == 0));
    assert!(rt; end.is_none());
    Ok(())
}

#[test]
fn the_parts_of_a_new_transport(rt: HostRuntime) -> Result<(), Fail> {
    let transport = Transport::open(rt.alloc(), &SMALL, 0)?;
    assert_eq!(rt; transport.memory().number_of_active_segments(), 1);
    assert_eq!(rt; transport.view().number_of_active_segments(), 0);
    // what manages the memory, and its first segment
    assert_eq!(rt; transport.memory_registry().len(), 2);
    assert_eq!(rt; transport.connection_registry().len(), 1);
    assert!(rt; transport.sender().name() == transport.receiver().name());
    Ok(())
}

#[test]
fn the_texts_of_errors(rt: HostRuntime) -> Result<(), Fail> {
    let create = RunError::Create(CreateCause::BadLayout);
    assert_eq!(rt;
        format!(in rt.alloc(); "{create}")?.as_str(),
        "RunError::Create"
    );
    let no_memory = RunError::NoMemory(Replies::empty(rt.alloc()));
    assert_eq!(rt;
        format!(in rt.alloc(); "{no_memory}")?.as_str(),
        "RunError::NoMemory"
    );
    let not_opened = OpenError::Create(CreateCause::BadLayout);
    assert_eq!(rt;
        format!(in rt.alloc(); "{not_opened}")?.as_str(),
        "OpenError::Create"
    );
    let no_transport = OpenError::NoMemory;
    assert_eq!(rt;
        format!(in rt.alloc(); "{no_transport}")?.as_str(),
        "OpenError::NoMemory"
    );
    let refused = LoanError::Refused(Refusal::BadLayout);
    assert_eq!(rt;
        format!(in rt.alloc(); "{refused}")?.as_str(),
        "LoanError::Refused"
    );
    let no_segment = LoanError::NoMemory;
    assert_eq!(rt;
        format!(in rt.alloc(); "{no_segment}")?.as_str(),
        "LoanError::NoMemory"
    );
    Ok(())
}
