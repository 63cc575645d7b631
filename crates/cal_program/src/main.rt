//! Runs scripts over a transport: `cal_program run` reads a script from standard input and writes the replies to its
//! commands to standard output. `cal_program relay BUFFER COUNT` sends offsets from one thread to another.
//!
//! A run over streams in memory, as the tests make it:
//!
//! ```
//! let words = words_of(rt.alloc(), "run")?;
//! let mut source = MemorySource::new(script, &[]);
//! let mut sink = MemorySink::new(rt.alloc(), &[]);
//! let outcome = run_program(rt.alloc(), words.as_slice(), &mut source, &mut sink);
//! assert_eq!(rt; outcome.status, status);
//! assert_eq!(rt; sink.as_slice(), text);
//! ```
#![tactic(auto)]

ghost use Rattle.std.specs.Prelude.{◌≡◌, codes, map, string_bytes, option_map};
ghost use Rattle.cal_program.specs.Information.{information_of};
ghost use Rattle.cal_program.specs.Words.{is_first_word};

mod examples;
mod gate;
mod help;
mod laws;
mod made_script;
mod output_buffer;
mod print;
mod print_relay;
mod read;
mod relay;
mod relay_form;
mod request;
mod run_program;
mod script;
mod sink;
mod source;
mod status;
mod std_streams;
mod summary;
#[cfg(test)]
mod tests;
mod words;
mod workers;

use gate::OpenGate;
use help::{HELP, VERSION};
use relay::run_relay;
use run_program::run_program;
use sink::Sink;
use status::Status;
use std::process::ExitCode;
use std::rt::Env;
use std::{env, io};
use std_streams::{StdSink, StdSource};
use words::{is_only_word, is_text};

fn main(rt: HostRuntime) -> ExitCode {
    let words = match words_of(&rt) {
        Ok(words) => words,
        Err(error) if error.kind() == io::ErrorKind::OutOfMemory => {
            return ExitCode::from(Status::NoMemory.code());
        }
        // No word is as faulty as one that isn't text.
        Err(_) => Vec::new(rt.alloc()),
    };
    let mut sink = StdSink::new(rt.stdout());
    if let Some(text) = information(words.as_slice()) {
        return match sink.put(text.as_bytes()) {
            Ok(()) => ExitCode::SUCCESS,
            Err(_) => ExitCode::from(Status::WriteFault.code()),
        };
    }
    if is_relay(words.as_slice()) {
        let outcome = run_relay(&rt, rt.alloc(), words.as_slice(), &OpenGate, &mut sink);
        return ExitCode::from(outcome.status.code());
    }
    let mut source = StdSource::new(rt.stdin());
    let outcome = run_program(rt.alloc(), words.as_slice(), &mut source, &mut sink);
    ExitCode::from(outcome.status.code())
}

/// The words of the command line after the program's name.
fn words_of<R: Env + AllocGlobal>(rt: &R) -> io::Result<Vec<String>> {
    let mut words = env::args(rt)?;
    let _ = words.next();
    Ok(words.collect(rt.alloc())?)
}

/// Whether the words ask for a relay.
fn is_relay(words: &[String]) -> bool
    ensures value { result ≡ is_first_word (codes "relay") (map string_bytes words.now) }
{
    match words {
        [word, ..] => is_text(word.as_bytes(), b"relay"),
        [] => false,
    }
}

/// The text of the one word that asks for information.
fn information(words: &[String]) -> Option<&'static str>
    ensures text { option_map (λ text. text.now) result ≡
        information_of HELP.now VERSION.now (map string_bytes words.now) }
{
    if is_only_word(words, b"--help") {
        return Some(HELP);
    }
    if is_only_word(words, b"--version") {
        return Some(VERSION);
    }
    None
}
