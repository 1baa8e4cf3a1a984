//! Reading a script.

ghost use Rattle.std.specs.Prelude.{◌≡◌, ◌≤◌, List, IfOk, Ok};
ghost use Rattle.dc_spec.specs.Scripts.{Script as ScriptValue};
ghost use Rattle.dc_formats.specs.TextFile.{file_lines};
ghost use Rattle.dc_formats.specs.ScriptFile.{IsScript, script_text};
ghost use Rattle.dc_text.specs.Lines.{and_then};
ghost use Rattle.dc_field.specs.Answers.{Answers};
ghost use Rattle.dc_field.specs.declared.refusal.Refusal.TheVariants.{Bad};
ghost use Rattle.dc_script.specs.Progress.{no_progress};
ghost use Rattle.dc_script.specs.Reading.{script_fault, script_from_bytes};
ghost use Rattle.dc_script.specs.TurnReading.{with_text, progress_in, after_head, script_by_turns};

use crate::fault::{ScriptFault, ScriptKind};
use crate::item::read_item;
use crate::progress::Progress;
use crate::round::Rounds;
use crate::script::Script;
use crate::turns::{is_waiting, terms_after, with_item};
use dc_field::Refusal;
use dc_text::Lines;
use std::alloc::Global;

/// The script that the bytes of a script file spell, or the first fault.
///
/// A script file is this project's own format, in version 1 or 2. A fault is reported with its
/// line, from 1, and what is wrong there. A missing delivery of the last round is reported at the
/// line past the last.
pub fn read_script(alloc: Global, b: &[u8]) -> Result<Script, Refusal<ScriptFault>>
    // The script, or the fault of the first line that has one, by the order of the tests.
    ensures exact { Answers result (script_from_bytes b.now) }
    // The script that is read keeps the limits, and the bytes are its text.
    ensures found { IfOk result (λ s. IsScript s × (b.now ≡ script_text s)) }
    // The text of each script is read as that script.
    ensures only { (s : ScriptValue) → IsScript s → b.now ≡ script_text s → Answers result (Ok s) }
{
    read_head(alloc, b)
}

/// Tests the first line, then reads on.
#[tactic(auto, unfolding(crate::specs::TurnReading::script_by_turns))]
fn read_head(alloc: Global, b: &[u8]) -> Result<Script, Refusal<ScriptFault>>
    ensures { Answers result (script_by_turns b.now) }
{
    let mut lines = Lines::new(b);
    if lines.at_end() {
        return Err(refusal(1, ScriptKind::Header));
    }
    match lines.next() {
        None => Err(refusal(1, ScriptKind::NotText)),
        Some(text) => {
            if text == b"dcscript 1".as_slice() {
                read_rounds(alloc, 1, lines)
            } else if text == b"dcscript 2".as_slice() {
                read_rounds(alloc, 2, lines)
            } else {
                Err(refusal(1, ScriptKind::Header))
            }
        }
    }
}

/// The refusal of a line.
fn refusal(line: u32, kind: ScriptKind) -> Refusal<ScriptFault>
    ensures { result ≡ Bad (script_fault line kind) }
{
    Refusal::Bad(ScriptFault { line, kind })
}

/// Reads the lines after the first, then tests the end.
fn read_rounds(alloc: Global, version: u8, lines: Lines<'_>) -> Result<Script, Refusal<ScriptFault>>
    requires some_version { 1 ≤ version }
    requires most_version { version ≤ 2 }
    requires one_line { lines.before ≡ 1 }
    ensures { Answers result (after_head version (file_lines lines.entry.bytes)) }
{
    let (progress, line) = read_lines(alloc, version, lines)?;
    let Progress { rounds, .. } = progress;
    if is_waiting(&rounds) {
        return Err(refusal(line, ScriptKind::Missing));
    }
    Ok(Script { version, rounds })
}

/// Nothing is read yet.
fn no_progress(alloc: Global) -> Progress
    ensures { result ≡ no_progress }
{
    Progress {
        rounds: Rounds::from_vec(Vec::new(alloc)),
        terms: 0,
    }
}

/// Reads the lines after the first: what they make, and the number of the line past the last.
fn read_lines(
    alloc: Global,
    version: u8,
    after_head: Lines<'_>,
) -> Result<(Progress, u32), Refusal<ScriptFault>>
    requires { after_head.before ≡ 1 }
    ensures { Answers result (progress_in version (file_lines after_head.entry.bytes)) }
{
    let mut progress = no_progress(alloc);
    let mut lines = after_head;
    while !lines.at_end() {
        let number = lines.number();
        let text = match lines.next() {
            Some(text) => text,
            None => return Err(refusal(number, ScriptKind::NotText)),
        };
        progress = match with_text(alloc, version, progress, text, number) {
            Ok(progress) => progress,
            Err(refusal) => return Err(refusal),
        };
    }
    Ok((progress, lines.number()))
}

/// The progress with one more line, which has this number.
fn with_text(
    alloc: Global,
    version: u8,
    progress: Progress,
    text: &[u8],
    line: u32,
) -> Result<Progress, Refusal<ScriptFault>>
    ensures { Answers result (and_then (script_fault line) (λ next. Ok next)
        (with_text version progress text.now)) }
{
    let item = match read_item(version, text) {
        Some(item) => item,
        None => return Err(refusal(line, ScriptKind::Form)),
    };
    let Progress { rounds, terms } = progress;
    match with_item(alloc, rounds, terms, item) {
        Ok(rounds) => Ok(Progress {
            rounds,
            terms: terms_after(terms, &item),
        }),
        Err(Refusal::NoMemory) => Err(Refusal::NoMemory),
        Err(Refusal::Bad(kind)) => Err(refusal(line, kind)),
    }
}
