//! Where bytes come from.

ghost use Rattle.std.specs.Prelude.{◌≡◌, ◌<◌, ◌≤◌, length, take, IfOk, OnErr};
ghost use Rattle.std.specs.Io.KnownBytes.{IsAtEnd};
ghost use Rattle.cal_program.specs.Streams.{SourceState, Takes, TakesNothing};

/// A source or a sink failed in this call.
#[derive(Clone, Copy, Debug, PartialEq, Eq)]
pub struct Failed;

/// A source of bytes that may fail. It counts its bytes and its faults, and may tell which bytes are left.
pub trait Source {
    ghost state: { Self → SourceState };

    /// Puts the next bytes into the front of the piece, and says how many: none exactly at the end. A failed call gives
    /// no byte and leaves what is left.
    fn take(&mut self, into: &mut [u8]) -> Result<usize, Failed>
        requires { 0 < length into.old }
        ensures count { IfOk result (λ count. count ≤ length into.new) }
        ensures taken { IfOk result (λ count. Takes (state self.old) (state self.new) (take count into.new)) }
        ensures end { IfOk result (λ count. count ≡ 0 → IsAtEnd (state self.new).left) }
        ensures failed { OnErr result (TakesNothing (state self.old) (state self.new)) };
}
