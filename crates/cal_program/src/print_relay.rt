//! Prints what went over the channel of a relay.
ghost use Rattle.std.specs.Prelude.{◌≡◌, OnErr, OnOk};
ghost use Rattle.cal_program.specs.Printing.{Follows};
ghost use Rattle.cal_program.specs.Relay.{relay_line};
ghost use Rattle.cal_program.specs.Streams.{FailsWithin, PutsAll};

use crate::output_buffer::OutputBuffer;
use crate::sink::Sink;
use crate::source::Failed;
use cal_shared::PortRest;

/// Puts the line with the counts of a channel. It takes no memory.
pub fn print_relay<S: Sink>(all: &PortRest, sink: &mut S) -> Result<(), Failed>
    ensures ok { OnOk result (PutsAll (S.state sink.old) (S.state sink.new)
        (relay_line all.now.sent all.now.received all.now.returned all.now.left)) }
    ensures failed { OnErr result (FailsWithin (S.state sink.old) (S.state sink.new)
        (relay_line all.now.sent all.now.received all.now.returned all.now.left)) }
{
    let mut buffer = OutputBuffer::new();
    print_counts(&mut buffer, sink, all);
    buffer.flush(sink);
    if buffer.has_failed() {
        return Err(Failed);
    }
    Ok(())
}

fn print_counts<S: Sink>(buffer: &mut OutputBuffer, sink: &mut S, all: &PortRest)
    ensures { Follows buffer.old (S.state sink.old) buffer.new (S.state sink.new)
        (relay_line all.now.sent all.now.received all.now.returned all.now.left) }
{
    buffer.text(sink, b"sent ");
    buffer.number(sink, all.sent);
    buffer.text(sink, b" received ");
    buffer.number(sink, all.received);
    buffer.text(sink, b" returned ");
    buffer.number(sink, all.returned);
    buffer.text(sink, b" left ");
    buffer.number(sink, all.left);
    buffer.text(sink, b"\n");
}
