//! Reading a manifest.

ghost use Rattle.std.specs.Prelude.{◌≡◌, Some, true, false, IfOk, MatchOption};
ghost use Rattle.std.specs.Str.{is_utf8};
ghost use Rattle.toml.specs.Errors.{IsMemory};
ghost use Rattle.toml.specs.Parse.{parse_document};
ghost use Rattle.toml.specs.View.{table_view};
ghost use Rattle.dc_field.specs.Answers.{Answers};
ghost use Rattle.dc_field.specs.declared.refusal.Refusal.TheVariants.{NoMemory, Bad};
ghost use Rattle.dc_manifest.specs.declared.fault.ManifestFault.TheVariants.{Toml};
ghost use Rattle.dc_manifest.specs.Content.{IsContent};
ghost use Rattle.dc_manifest.specs.Reading.{manifest_of_document, manifest_of};

use crate::content::read_content;
use crate::fault::ManifestFault;
use crate::manifest::Manifest;
use crate::values::{first_absent, first_unknown, read_values};
use dc_field::{Refusal, Text};
use std::alloc::Global;
use toml::Table;

/// The manifest that bytes hold.
#[tactic(auto, unfolding(crate::specs::Reading::manifest_of))]
pub fn read_manifest(alloc: Global, b: &[u8]) -> Result<Manifest, Refusal<ManifestFault>>
    // What is read, or the first fault by the order of the tests.
    ensures exact { Answers result (manifest_of b.now) }
    // What is read keeps the limits.
    ensures limits { IfOk result (λ m. IsContent m) }
{
    match text_of(b) {
        Some(text) => read_document(alloc, text),
        None => Err(Refusal::Bad(ManifestFault::Toml)),
    }
}

/// Bytes as a text, where they are UTF-8.
fn text_of(b: &[u8]) -> Option<&str>
    ensures { MatchOption result (is_utf8 b.now ≡ false) (λ text. (is_utf8 b.now ≡ true) × (text.now ≡ b.now)) }
{
    std::str::from_utf8(b).ok()
}

/// The manifest that a text holds.
#[tactic(auto, unfolding(crate::specs::Reading::manifest_of_document))]
fn read_document(alloc: Global, text: &str) -> Result<Manifest, Refusal<ManifestFault>>
    ensures { Answers result (manifest_of_document (parse_document text.now)) }
{
    match toml::table_from_str(alloc, text) {
        Ok(table) => read_table(alloc, &table),
        Err(e) => Err(refusal_of(&e)),
    }
}

/// Out of memory, or the fault of a text that is no document.
fn refusal_of(e: &toml::de::Error) -> Refusal<ManifestFault>
    ensures memory { IsMemory e.now → result ≡ NoMemory }
    ensures fault { ¬ IsMemory e.now → result ≡ Bad Toml }
{
    if e.is_memory() {
        Refusal::NoMemory
    } else {
        Refusal::Bad(ManifestFault::Toml)
    }
}

/// The manifest that the table of a document holds: the names of its fields are tested, then
/// their kinds, then their values.
#[tactic(auto, unfolding(crate::specs::Reading::manifest_of_document))]
fn read_table(alloc: Global, table: &Table) -> Result<Manifest, Refusal<ManifestFault>>
    ensures { Answers result (manifest_of_document (Some (table_view table.now))) }
{
    if let Some(name) = first_unknown(table) {
        let name = Text::copy_of(alloc, name)?;
        return Err(Refusal::Bad(ManifestFault::Unknown { name }));
    }
    if let Some(name) = first_absent(table) {
        let name = Text::copy_of(alloc, name)?;
        return Err(Refusal::Bad(ManifestFault::Field { name }));
    }
    let values = read_values(alloc, table)?;
    read_content(alloc, values)
}
