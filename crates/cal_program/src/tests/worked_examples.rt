//! Worked examples: whole scripts of transports with one segment and one channel, with the lines that they owe.

use crate::tests::scripts::assert_lines;
use std::test::Fail;

#[test]
fn loans_that_the_pool_refuses(rt: HostRuntime) -> Result<(), Fail> {
    assert_lines(
        &rt,
        "transport 8 8 1 static 1 1 off 1 1 1;loan 16 16;loan 16 8;loan 8 8;loan 8 8;loan 4 3",
        "refused ExceedsMaxSupportedAlignment;refused SizeTooLarge;loaned 3 0:0;refused OutOfMemory;refused BadLayout",
        &[],
    )
}

#[test]
fn a_full_buffer_and_the_borrow_limit(rt: HostRuntime) -> Result<(), Fail> {
    assert_lines(
        &rt,
        "transport 8 8 2 static 1 1 off 2 1 1;loan 8 8;loan 8 8;send 0 1;send 0 2;receive 0;receive 0",
        "loaned 1 0:*;loaned 2 0:*;sent;refused ReceiveBufferFull;received 1 0:*;\
         refused ReceiveWouldExceedMaxBorrowValue",
        &[(0, 1)],
    )
}

#[test]
fn a_completion_queue_that_just_holds_all(rt: HostRuntime) -> Result<(), Fail> {
    assert_lines(
        &rt,
        "transport 8 8 3 static 1 1 off 3 1 1;loan 1 1;loan 1 1;loan 1 1;send 0 1;receive 0;reclaim 0;send 0 2;\
         reclaim 0;release 0 1;receive 0;send 0 3;release 0 2;receive 0;release 0 3",
        "loaned 1 0:*;loaned 2 0:*;loaned 3 0:*;sent;received 1 0:*;reclaimed none;sent;reclaimed none;released;\
         received 2 0:*;sent;released;received 3 0:*;released",
        &[(0, 1), (0, 2), (0, 3)],
    )
}

#[test]
fn a_completion_queue_that_is_full(rt: HostRuntime) -> Result<(), Fail> {
    assert_lines(
        &rt,
        "transport 8 8 4 static 1 1 off 4 1 1;loan 8 8;loan 8 8;loan 8 8;loan 8 8;send 0 1;receive 0;release 0 1;\
         send 0 2;receive 0;release 0 2;send 0 3;receive 0;release 0 3;send 0 4;receive 0;release 0 4;reclaim 0;\
         release 0 4",
        "loaned 1 0:*;loaned 2 0:*;loaned 3 0:*;loaned 4 0:*;sent;received 1 0:*;released;sent;received 2 0:*;released;\
         sent;received 3 0:*;released;sent;received 4 0:*;refused RetrieveBufferFull;reclaimed 1 0:*;released",
        &[(0, 2), (0, 3), (0, 4)],
    )
}

#[test]
fn each_cause_in_its_order(rt: HostRuntime) -> Result<(), Fail> {
    assert_lines(
        &rt,
        "transport 8 8 1 static 2 2 off 1 1 1;loan 0 1;send 0 1;send 0 1;write 1 0 01;read 0 1 0 1;receive 0;\
         release 0 1;release 0 1;reclaim 0;send 0 1;send 1 1;send 0 5;receive 9;discard 1;discard 1",
        "loaned 1 0:0;sent;refused AlreadyInTransit;refused WriteAfterSend;refused NotBorrowed;received 1 0:0;released;\
         refused NotBorrowed;reclaimed 1 0:0;sent;refused OutsideConnection;refused NotLoaned;\
         refused OutsideConnection;discarded;refused NotLoaned",
        &[(0, 1)],
    )
}

#[test]
fn the_first_of_two_causes(rt: HostRuntime) -> Result<(), Fail> {
    assert_lines(
        &rt,
        "transport 8 8 1 static 1 1 off 1 1 1;loan 8 8;send 9 99;read 0 1 8 1;write 1 8 01;send 0 1;write 1 8 01;\
         send 0 1;receive 0;read 0 1 8 1;read 0 1 8 0;read 9 1 8 1;loan 9 8",
        "loaned 1 0:0;refused NotLoaned;refused NotBorrowed;refused OutsideChunk;sent;refused WriteAfterSend;\
         refused AlreadyInTransit;received 1 0:0;refused OutsideChunk;bytes -;refused OutsideConnection;\
         refused SizeTooLarge",
        &[(0, 1)],
    )
}

#[test]
fn a_chunk_that_is_borrowed_again(rt: HostRuntime) -> Result<(), Fail> {
    assert_lines(
        &rt,
        "transport 8 8 1 static 1 1 off 1 1 1;loan 8 8;write 1 7 09;send 0 1;receive 0;release 0 1;reclaim 0;\
         write 1 0 01;send 0 1;read 0 1 7 1;receive 0;read 0 1 7 1;release 0 1;release 0 1",
        "loaned 1 0:0;written;sent;received 1 0:0;released;reclaimed 1 0:0;refused WriteAfterSend;sent;\
         refused NotBorrowed;received 1 0:0;bytes 09;released;refused NotBorrowed",
        &[(0, 1)],
    )
}

#[test]
fn an_unborrowed_chunk_on_a_full_completion_queue(rt: HostRuntime) -> Result<(), Fail> {
    assert_lines(
        &rt,
        "transport 8 8 3 static 1 1 off 3 1 1;loan 8 8;loan 8 8;loan 8 8;send 0 1;receive 0;release 0 1;send 0 2;\
         receive 0;release 0 2;send 0 3;receive 0;release 0 3;release 0 3",
        "loaned 1 0:*;loaned 2 0:*;loaned 3 0:*;sent;received 1 0:*;released;sent;received 2 0:*;released;sent;\
         received 3 0:*;released;refused NotBorrowed",
        &[(0, 1), (0, 2), (0, 3)],
    )
}

#[test]
fn a_bucket_past_the_samples(rt: HostRuntime) -> Result<(), Fail> {
    assert_lines(
        &rt,
        "transport 8 8 2 static 1 1 off 1 1 1;loan 8 8;loan 8 8;send 0 2;send 0 1",
        "loaned 1 0:0;loaned 2 0:8;refused OutsideConnection;sent",
        &[(0, 1)],
    )
}

#[test]
fn settings_of_zeros(rt: HostRuntime) -> Result<(), Fail> {
    assert_lines(
        &rt,
        "transport 8 8 2 static 0 0 off 0 0 0;loan 8 8;loan 8 8;send 0 2;send 1 1;send 0 1;receive 0;receive 0;\
         receive 1",
        "loaned 1 0:0;loaned 2 0:8;refused OutsideConnection;refused OutsideConnection;sent;received 1 0:0;\
         refused ReceiveWouldExceedMaxBorrowValue;refused OutsideConnection",
        &[(0, 1)],
    )
}

#[test]
fn transit_by_place_and_not_by_name(rt: HostRuntime) -> Result<(), Fail> {
    assert_lines(
        &rt,
        "transport 8 8 2 static 2 1 off 2 1 1;loan 8 8;loan 8 8;discard 1;loan 8 8;send 0 2;send 0 4",
        "loaned 1 0:0;loaned 2 0:8;discarded;loaned 4 0:0;sent;sent",
        &[(0, 2), (0, 4)],
    )
}
