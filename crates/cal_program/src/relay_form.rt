//! What the words of a relay ask for.
ghost use Rattle.std.specs.Prelude.{◌≡◌, map, string_bytes, IfSome};
ghost use Rattle.cal_program.specs.Relay.{IsRelayForm, form_of, named_form, numbers_form, port_settings, relay_form};

use crate::words::{self, is_text};
use cal_connection::CHANNEL_STATE_OPEN;
use cal_shared::PortSettings;

/// The greatest number of offsets that may be queued in a relay.
const BUFFER_LIMIT: usize = 1024;

/// The greatest number of offsets that a relay sends.
const COUNT_LIMIT: usize = 1_000_000;

/// What the words of a relay ask for.
#[derive(Debug, Clone, Copy, PartialEq, Eq)]
pub struct RelayForm {
    /// How many offsets may be queued, at least 1.
    pub buffer: usize,
    /// How many offsets are sent.
    pub count: usize,
}

impl RelayForm {
    /// What the pair of ports is made with: overflow, one borrowed offset, and a sample for each offset that is sent.
    pub fn port_settings(self) -> PortSettings
        ensures value { result ≡ port_settings self }
    {
        PortSettings {
            buffer: self.buffer,
            borrow: 1,
            samples: self.count,
            channels: 1,
            overflow: true,
            segments: 1,
            initial: CHANNEL_STATE_OPEN,
        }
    }
}

/// What the words ask for, where they have the form `relay BUFFER COUNT`.
pub fn relay_form(words: &[String]) -> Option<RelayForm>
    ensures value { result ≡ relay_form (map string_bytes words.now) }
    ensures within { IfSome result IsRelayForm }
{
    match words {
        [word, buffer, count] => {
            named_form(word.as_bytes(), buffer.as_bytes(), count.as_bytes())
        }
        _ => None,
    }
}

/// The same of the three words.
fn named_form(word: &[u8], buffer: &[u8], count: &[u8]) -> Option<RelayForm>
    ensures value { result ≡ named_form word.now buffer.now count.now }
    ensures within { IfSome result IsRelayForm }
{
    if !is_text(word, b"relay") {
        return None;
    }
    numbers_form(buffer, count)
}

/// The same of the two numbers.
fn numbers_form(buffer: &[u8], count: &[u8]) -> Option<RelayForm>
    ensures value { result ≡ numbers_form buffer.now count.now }
    ensures within { IfSome result IsRelayForm }
{
    let buffer = words::number(buffer)?;
    let count = words::number(count)?;
    form_of(buffer, count)
}

/// The same of the numbers that the words stand for.
fn form_of(buffer: usize, count: usize) -> Option<RelayForm>
    ensures value { result ≡ form_of buffer count }
    ensures within { IfSome result IsRelayForm }
{
    if buffer < 1 || buffer > BUFFER_LIMIT || count > COUNT_LIMIT {
        return None;
    }
    Some(RelayForm { buffer, count })
}
