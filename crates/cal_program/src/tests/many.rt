//! A run of 200 commands over 64 buckets with a read of 5,000 bytes, compared whole. An answer that memory ran out
//! without cause, which no clause can refuse, is refused here. The places are those that today's pool chooses.

ghost use Rattle.std.specs.Prelude.{◌<◌};

use crate::status::Status;
use crate::tests::assert_run;
use std::alloc::{AllocError, Global};
use std::test::Fail;

/// The bytes of a bucket.
const SIZE: usize = 5000;

/// How many buckets there are.
const BUCKETS: usize = 64;

/// A script and the text that it owes.
#[derive(Drop)]
struct Dialog {
    script: Vec<u8>,
    text: Vec<u8>,
}

impl Dialog {
    fn line(&mut self, command: &str, reply: &str) -> Result<(), AllocError> {
        self.script.extend_from_slice(b"\n")?;
        self.script.extend_from_slice(command.as_bytes())?;
        self.text.extend_from_slice(reply.as_bytes())?;
        self.text.extend_from_slice(b"\n")
    }

    /// All buckets are loaned.
    fn loans(&mut self, alloc: Global) -> Result<(), AllocError> {
        for bucket in 0..BUCKETS {
            let reply = format!(in alloc; "loaned {} 0:{}", bucket + 1, bucket * SIZE)?;
            self.line("loan 5000 8", reply.as_str())?;
        }
        Ok(())
    }

    /// The first chunk is written and read whole.
    fn whole_chunk(&mut self, alloc: Global) -> Result<(), AllocError> {
        let mut letters = String::new(alloc);
        for _ in 0..SIZE {
            letters.push_str("a5")?;
        }
        self.line(
            format!(in alloc; "write 1 0 {letters}")?.as_str(),
            "written",
        )?;
        self.line("send 0 1", "sent")?;
        self.line("receive 0", "received 1 0:0")?;
        self.line(
            "read 0 1 0 5000",
            format!(in alloc; "bytes {letters}")?.as_str(),
        )?;
        self.line("release 0 1", "released")?;
        self.line("reclaim 0", "reclaimed 1 0:0")
    }

    /// The chunk in a bucket goes there and back.
    fn there_and_back(&mut self, alloc: Global, bucket: usize) -> Result<(), AllocError>
        requires below { bucket < 64 }
    {
        let chunk = bucket + 1;
        let place = bucket * SIZE;
        self.line(format!(in alloc; "send 0 {chunk}")?.as_str(), "sent")?;
        self.line(
            "receive 0",
            format!(in alloc; "received {chunk} 0:{place}")?.as_str(),
        )?;
        self.line(format!(in alloc; "release 0 {chunk}")?.as_str(), "released")?;
        self.line(
            "reclaim 0",
            format!(in alloc; "reclaimed {chunk} 0:{place}")?.as_str(),
        )
    }
}

#[test]
fn two_hundred_commands(rt: HostRuntime) -> Result<(), Fail> {
    let mut dialog = Dialog {
        script: Vec::from_slice(rt.alloc(), b"transport 5000 8 64 static 8 8 off 64 1 1")?,
        text: Vec::new(rt.alloc()),
    };
    dialog.loans(rt.alloc())?;
    dialog.whole_chunk(rt.alloc())?;
    for bucket in 1..33 {
        dialog.there_and_back(rt.alloc(), bucket)?;
    }
    dialog.line("discard 1", "discarded")?;
    dialog.line("loan 8 8", "loaned 200 0:0")?;
    assert_run(
        &rt,
        dialog.script.as_slice(),
        Status::Done,
        dialog.text.as_slice(),
    )?;
    Ok(())
}
