//! The output's buffer: what is printed gathers in it, and is put into a sink each time that it is full. It takes no
//! memory.

ghost use Rattle.std.specs.Prelude.{◌≡◌, ◌<◌, ◌∷◌, [], decimal, false};
ghost use Rattle.cal_program.specs.Printing.{Follows};
ghost use Rattle.cal_program.specs.Spelling.{hex, hex_letter, hex_pair};

use crate::sink::Sink;
use std::marker::Model;

/// How many bytes a buffer has.
const BUFFER_SIZE: usize = 4096;

/// The bytes that aren't put yet. Once the sink failed, it is called no more.
#[derive(Drop)]
pub struct OutputBuffer {
    /// Room for the bytes; those that are held come first.
    bytes: [u8; BUFFER_SIZE],
    /// How many bytes are held.
    held: usize,
    /// Whether the sink failed.
    failed: bool,
}

impl Model for OutputBuffer {
    ghost use Rattle.std.specs.Prelude.{◌≡◌, ◌≤◌, length, take};
    ghost use Rattle.cal_program.specs.Printing.{BufferState};

    ghost Value = { BufferState };

    ghost view = { λ p. record { held = take p.held p.bytes; failed = p.failed } };

    ghost invariant = { λ p. (p.held ≤ 4096) × (length p.bytes ≡ 4096) };
}

impl OutputBuffer {
    /// An empty buffer.
    pub fn new() -> OutputBuffer
        ensures empty { result ≡ record { held = []; failed = false } }
    {
        OutputBuffer {
            bytes: [0; BUFFER_SIZE],
            held: 0,
            failed: false,
        }
    }

    /// Whether the sink failed.
    pub fn has_failed(&self) -> bool
        ensures value { result ≡ self.now.failed }
    {
        self.failed
    }

    /// Puts what the buffer holds. The sink isn't called where it holds nothing.
    pub fn flush<S: Sink>(&mut self, sink: &mut S)
        ensures text { Follows self.old (S.state sink.old) self.new (S.state sink.new) [] }
        ensures empty { self.new.held ≡ [] }
    {
        if self.held == 0 {
            return;
        }
        if self.failed {
            self.held = 0;
            return;
        }
        let Ok(()) = sink.put(&self.bytes[..self.held]) else {
            self.failed = true;
            self.held = 0;
            return;
        };
        self.held = 0;
    }

    /// Prints a byte.
    pub fn byte<S: Sink>(&mut self, sink: &mut S, byte: u8)
        ensures text { Follows self.old (S.state sink.old) self.new (S.state sink.new) (byte ∷ []) }
    {
        if self.held == BUFFER_SIZE {
            self.flush(sink);
        }
        self.bytes[self.held] = byte;
        self.held += 1;
    }

    /// Prints bytes as they are.
    pub fn text<S: Sink>(&mut self, sink: &mut S, text: &[u8])
        ensures text { Follows self.old (S.state sink.old) self.new (S.state sink.new) text.now }
    {
        for byte in text {
            self.byte(sink, *byte);
        }
    }

    /// Prints a number in decimal.
    pub fn number<S: Sink>(&mut self, sink: &mut S, number: usize)
        ensures text { Follows self.old (S.state sink.old) self.new (S.state sink.new) (decimal number) }
    {
        let mut digits = itoa::Buffer::new();
        self.text(sink, digits.format(number).as_bytes());
    }

    /// Prints bytes in hexadecimal, and a dash for no bytes.
    pub fn hex<S: Sink>(&mut self, sink: &mut S, bytes: &[u8])
        ensures text { Follows self.old (S.state sink.old) self.new (S.state sink.new) (hex bytes.now) }
    {
        if bytes.is_empty() {
            self.byte(sink, b'-');
            return;
        }
        for byte in bytes {
            self.hex_pair(sink, *byte);
        }
    }

    fn hex_pair<S: Sink>(&mut self, sink: &mut S, byte: u8)
        ensures { Follows self.old (S.state sink.old) self.new (S.state sink.new) (hex_pair byte) }
    {
        self.byte(sink, hex_letter(byte / 16));
        self.byte(sink, hex_letter(byte % 16));
    }
}

/// The letter of half a byte.
fn hex_letter(half: u8) -> u8
    requires { half < 16 }
    ensures { result ≡ hex_letter half }
{
    if half < 10 {
        b'0' + half
    } else {
        b'a' + (half - 10)
    }
}
