//! Answers of calls that may be out of memory.

ghost use Rattle.std.specs.Prelude.{◌≡◌, Ok};

use dc_field::Refusal;
use std::process::Abort;

/// The fault of an answer; None where it is Ok. A test that is out of memory ends.
pub fn fault_of<R: Abort, T: Drop, F>(rt: &R, answer: Result<T, Refusal<F>>) -> Option<F> {
    match answer {
        Ok(_) => None,
        Err(Refusal::Bad(fault)) => Some(fault),
        Err(Refusal::NoMemory) => panic!(rt; "out of memory"),
    }
}

/// The value of an answer that has to be Ok.
pub fn done<R: Abort, T, E: Drop>(rt: &R, answer: Result<T, E>) -> T
    ensures { answer ≡ Ok result }
{
    match answer {
        Ok(value) => value,
        Err(_) => panic!(rt; "refused"),
    }
}
