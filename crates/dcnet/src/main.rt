//! `dcnet`: makes the real objects, runs the top call, and ends with its status.
#![tactic(auto)]

ghost use Rattle.std.specs.Prelude.{◌≡◌};
ghost use Rattle.std.specs.IoError.{error_kind};
ghost use Rattle.dcnet.specs.WithoutWords.{outcome_without_words};

use dc_cli::{Outcome, dcnet, put_fault, status};
use dc_edge::{DirShelf, OpenGate, StdSink, TcpWire};
use std::io::ErrorKind;
use std::process::ExitCode;
use std::{env, io};

#[cfg(test)]
mod failing_tests;
#[cfg(test)]
mod in_memory;
#[cfg(test)]
mod key_file_tests;
#[cfg(test)]
mod logs_tests;
#[cfg(test)]
mod refusal_tests;
#[cfg(test)]
mod replay_tests;
#[cfg(test)]
mod session_tests;
#[cfg(test)]
mod steer_tests;
#[cfg(test)]
mod tests;
#[cfg(test)]
mod trial_tests;
#[cfg(test)]
mod twin_tests;

fn main(rt: HostRuntime) -> ExitCode {
    let mut err = StdSink::new(rt.stderr());
    let outcome = match arguments(&rt) {
        Ok(words) => {
            let mut shelf = DirShelf::new(rt);
            let mut out = StdSink::new(rt.stdout());
            let mut wire = TcpWire::new(rt, rt.alloc());
            dcnet(
                &rt,
                rt.alloc(),
                &words,
                &mut shelf,
                &mut out,
                &mut err,
                &mut wire,
                &OpenGate,
            )
        }
        Err(error) => {
            let outcome = without_words(error);
            let _ = put_fault(&outcome, &mut err);
            outcome
        }
    };
    ExitCode::from(status(&outcome))
}

/// The command line without the program's name.
fn arguments(rt: &HostRuntime) -> io::Result<Vec<String>> {
    let mut words = Vec::new(rt.alloc());
    for word in env::args(rt)?.skip(1) {
        words.push(word)?;
    }
    Ok(words)
}

/// The outcome of a command line that is not available as text: memory ran out, or a word is not UTF-8.
fn without_words(error: io::Error) -> Outcome
    ensures { result ≡ outcome_without_words (error_kind error) }
{
    match error.kind() {
        ErrorKind::OutOfMemory => Outcome::NoMemory,
        _ => Outcome::Usage { place: 0 },
    }
}
