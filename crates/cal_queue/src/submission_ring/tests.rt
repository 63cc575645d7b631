use super::{RingRest, SubmissionRing, rest};
use crate::push_refusal::PushRefusal;
use std::test::Fail;

#[test]
fn a_full_ring_with_overflow_gives_the_oldest_back(rt: HostRuntime) -> Result<(), Fail> {
    let (mut send, mut take) = SubmissionRing::new(rt.alloc(), 2)?;
    assert_eq!(rt; send.push(1, true), Ok(None));
    assert_eq!(rt; send.push(2, true), Ok(None));
    assert_eq!(rt; send.push(3, true), Ok(Some(1)));
    assert_eq!(rt; take.pop(&rt), Some(2));
    assert_eq!(rt; take.pop(&rt), Some(3));
    assert_eq!(rt; take.pop(&rt), None);
    let all = RingRest {
        sent: 3,
        received: 2,
        returned: 1,
        left: 0,
    };
    assert_eq!(rt; rest(send, take), all);
    Ok(())
}

#[test]
fn a_full_ring_without_overflow_refuses(rt: HostRuntime) -> Result<(), Fail> {
    let (mut send, mut take) = SubmissionRing::new(rt.alloc(), 2)?;
    assert_eq!(rt; send.push(1, false), Ok(None));
    assert_eq!(rt; send.push(2, false), Ok(None));
    assert!(rt; !send.has_room());
    assert_eq!(rt; send.push(3, false), Err(PushRefusal::Full));
    assert_eq!(rt; take.pop(&rt), Some(1));
    assert!(rt; send.has_room());
    assert_eq!(rt; send.push(3, false), Ok(None));
    let all = RingRest {
        sent: 3,
        received: 1,
        returned: 0,
        left: 2,
    };
    assert_eq!(rt; rest(send, take), all);
    Ok(())
}

#[test]
fn a_ring_of_one_is_used_many_times_round(rt: HostRuntime) -> Result<(), Fail> {
    let (mut send, mut take) = SubmissionRing::new(rt.alloc(), 1)?;
    assert!(rt; !take.has_value());
    for value in 0..10 {
        assert_eq!(rt; send.push(value, false), Ok(None));
        assert!(rt; take.has_value());
        assert_eq!(rt; take.pop(&rt), Some(value));
        assert!(rt; !take.has_value());
    }
    assert_eq!(rt; rest(send, take).received, 10);
    Ok(())
}

#[test]
fn a_refusal_is_shown_by_its_name(rt: HostRuntime) -> Result<(), Fail> {
    let full = format!(in rt.alloc(); "{}", PushRefusal::Full)?;
    let used_up = format!(in rt.alloc(); "{}", PushRefusal::PositionsUsedUp)?;
    assert_eq!(rt; full.as_str(), "PushRefusal::Full");
    assert_eq!(rt; used_up.as_str(), "PushRefusal::PositionsUsedUp");
    Ok(())
}
