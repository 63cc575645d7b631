//! Where bytes go.

ghost use Rattle.std.specs.Prelude.{OnOk, OnErr};
ghost use Rattle.cal_program.specs.Streams.{SinkState, Puts, PutsFront};

use crate::source::Failed;

/// A sink for bytes that may fail. It counts its faults, and may tell which bytes it took.
pub trait Sink {
    ghost state: { Self → SinkState };

    /// Puts the bytes at the end. A failed call has put a front of them there.
    fn put(&mut self, bytes: &[u8]) -> Result<(), Failed>
        ensures put { OnOk result (Puts (state self.old) (state self.new) bytes.now) }
        ensures failed { OnErr result (PutsFront (state self.old) (state self.new) bytes.now) };
}
