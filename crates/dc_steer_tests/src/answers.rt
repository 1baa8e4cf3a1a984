//! Answers of calls that may be out of memory.

ghost use Rattle.std.specs.Prelude.{◌≡◌, Ok};

use std::process::Abort;

/// The value of an answer that has to be Ok.
pub fn done<R: Abort, T, E: Drop>(rt: &R, answer: Result<T, E>) -> T
    ensures { answer ≡ Ok result }
{
    match answer {
        Ok(value) => value,
        Err(_) => panic!(rt; "refused"),
    }
}
