//! What a command line asks for.

ghost use Rattle.std.specs.Prelude.{◌≡◌, map, string_bytes};
ghost use Rattle.cal_program.specs.Request.{request_of, run_request, make_request};

use crate::words::{self, is_text};

/// A made run has at most this many rounds.
pub const ROUNDS_LIMIT: usize = 10_000;

/// What the words of a command line ask for.
#[derive(Clone, Copy, Debug, PartialEq, Eq)]
pub enum Request {
    /// A run of the script that the source has.
    Run,
    /// A run of the script that is made of these numbers.
    Make {
        /// The state from which the rounds follow.
        number: u64,
        /// How many rounds there are.
        rounds: u16,
    },
}

/// What the words ask for, if they have a form.
pub fn request_of(words: &[String]) -> Option<Request>
    ensures value { result ≡ request_of (map string_bytes words.now) }
{
    match words {
        [word] => run_request(word.as_bytes()),
        [word, number, rounds] => {
            make_request(word.as_bytes(), number.as_bytes(), rounds.as_bytes())
        }
        _ => None,
    }
}

fn run_request(word: &[u8]) -> Option<Request>
    ensures { result ≡ run_request word.now }
{
    if !is_text(word, b"run") {
        return None;
    }
    Some(Request::Run)
}

fn make_request(word: &[u8], number: &[u8], rounds: &[u8]) -> Option<Request>
    ensures { result ≡ make_request word.now number.now rounds.now }
{
    if !is_text(word, b"make") {
        return None;
    }
    let number = words::number(number)?;
    let rounds = words::number(rounds)?;
    if rounds > ROUNDS_LIMIT {
        return None;
    }
    Some(Request::Make {
        number: number as u64,
        rounds: rounds as u16,
    })
}
