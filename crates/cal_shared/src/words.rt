//! What the words of a connection say: the word of a channel, and the one that says which ports are there.
ghost use Rattle.std.specs.Prelude.{◌≡◌, ◌<◌, ◌^◌};
ghost use Rattle.cal_connection.specs.Words.{closed, has_hint, has_state, is_closed, is_connected, with_hint, without_hint};

use cal_connection::CHANNEL_STATE_DISCONNECT_HINT_BIT;

/// The word of a closed channel.
pub(crate) const CLOSED: u64 = u64::MAX;

/// The bit of the sender in the port word.
pub(crate) const SENDER_BIT: u8 = 1;

/// The bit of the receiver in the port word.
pub(crate) const RECEIVER_BIT: u8 = 2;

/// The port word of a connection whose two ports are there.
pub(crate) const BOTH_PORTS: u8 = SENDER_BIT + RECEIVER_BIT;

/// Whether both ports are there.
pub(crate) fn is_connected(word: u64) -> bool
    ensures value { result ≡ is_connected word }
{
    (word / SENDER_BIT as u64) % 2 == 1 && (word / RECEIVER_BIT as u64) % 2 == 1
}

/// Whether the channel of this word is closed.
pub(crate) fn is_closed(word: u64) -> bool
    ensures value { result ≡ is_closed word }
{
    word == CLOSED
}

/// The word without the hint bit.
fn without_hint(word: u64) -> u64
    ensures value { result ≡ without_hint word }
{
    word % CHANNEL_STATE_DISCONNECT_HINT_BIT
}

/// The state with the hint bit.
pub(crate) fn with_hint(state: u64) -> u64
    ensures value { result ≡ with_hint state }
{
    without_hint(state) + CHANNEL_STATE_DISCONNECT_HINT_BIT
}

/// Whether a word is that of a state with the hint bit.
pub(crate) fn has_hint(word: u64, state: u64) -> bool
    ensures value { result ≡ has_hint word state }
{
    word == with_hint(state)
}

/// Whether a word is that of a state, with the hint bit or without.
pub(crate) fn has_state(word: u64, state: u64) -> bool
    ensures value { result ≡ has_state word state }
{
    without_hint(word) == state
}
