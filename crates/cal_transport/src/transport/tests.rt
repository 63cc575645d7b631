//! The commands of a transport over ports and growing memory.

use crate::transport::Transport;
use crate::{Refusal, Replies, Reply, Settings, Slot};
use cal_alloc::AllocationStrategy;
use std::alloc::Global;
use std::process::Abort;
use std::test::Fail;

/// Two buckets of 8 bytes that grow by what is asked for, two channels with a buffer of one that overflow.
fn settings() -> Settings {
    Settings {
        size: 8,
        alignment: 8,
        count: 1,
        strategy: AllocationStrategy::BestFit,
        buffer: 1,
        borrow: 2,
        overflow: true,
        samples: 4,
        segments: 4,
        channels: 2,
    }
}

#[test]
fn a_chunk_goes_there_and_back(rt: HostRuntime) -> Result<(), Fail> {
    let mut transport = Transport::open(rt.alloc(), &settings(), 2)?;
    let slot = transport.loan(rt.alloc(), 1, 8, 8)?;
    assert_eq!(rt;
        slot,
        Slot {
            chunk: 1,
            segment: 0,
            place: 0
        }
    );
    assert_eq!(rt; transport.write(1, 2, &[7, 9]), Ok(()));
    assert_eq!(rt; transport.send(1, 1), Ok(None));
    assert_eq!(rt; transport.receive(1), Ok(Some(slot)));
    assert!(rt; matches!(transport.read(1, 1, 1, 3), Ok([0, 7, 9])));
    assert_eq!(rt; transport.release(1, 1), Ok(()));
    assert_eq!(rt; transport.reclaim(1), Ok(Some(slot)));
    assert_eq!(rt; transport.discard(1), Ok(()));
    Ok(())
}

#[test]
fn a_full_queue_overflows_and_memory_grows(rt: HostRuntime) -> Result<(), Fail> {
    let mut transport = Transport::open(rt.alloc(), &settings(), 2)?;
    let first = transport.loan(rt.alloc(), 1, 8, 8)?;
    let second = transport.loan(rt.alloc(), 2, 16, 8)?;
    assert_eq!(rt; second.segment, 1);
    assert_eq!(rt; transport.send(0, 1), Ok(None));
    assert_eq!(rt; transport.send(0, 1), Err(Refusal::AlreadyInTransit));
    assert_eq!(rt; transport.send(0, 2), Ok(Some(first)));
    assert_eq!(rt; transport.in_transit(), 1);
    let count = transport.count();
    assert_eq!(rt;
        (
            count.active,
            count.mapped,
            count.current,
            count.size,
            count.buckets
        ),
        (2, 0, 1, 16, 2)
    );
    let mut replies = Replies::new(rt.alloc(), 1)?;
    transport.transit(&mut replies);
    assert_eq!(rt;
        replies.get(0),
        Some(&Reply::Transit {
            channel: 0,
            slot: second
        })
    );
    Ok(())
}
