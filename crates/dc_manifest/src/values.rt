//! The values of the fields.

ghost use Rattle.std.specs.Prelude.{◌≡◌, option_map, map};
ghost use Rattle.std.specs.List.{find};
ghost use Rattle.toml.specs.Data.{get_member};
ghost use Rattle.toml.specs.View.{view, table_view};
ghost use Rattle.dc_field.specs.Answers.{Answers};
ghost use Rattle.dc_manifest.specs.Fields.{known, is_named, is_absent, of_kind, needed, wanted, values_of, first_unknown as first_unknown_of, first_absent as first_absent_of};

use crate::fault::ManifestFault;
use crate::kind::Kind;
use crate::manifest::Names;
use dc_field::{Items, Refusal, Text};
use std::alloc::Global;
use std::marker::Model;
use toml::{Table, Value};

/// What the fields hold, each as its kind.
#[derive(Drop)]
pub(crate) struct Values {
    pub(crate) coalition: Items<i64>,
    pub(crate) edges: Items<(i64, i64)>,
    pub(crate) keys: Text,
    pub(crate) script: Option<Text>,
    pub(crate) stations: i64,
    pub(crate) streams: Names,
    pub(crate) words: i64,
}

impl Model for Values {
    ghost use Rattle.dc_manifest.specs.Fields.{FieldValues};

    ghost Value = { FieldValues };

    ghost view = { λ v. record { coalition = v.coalition; edges = v.edges; keys = v.keys; script = v.script; stations = v.stations; streams = v.streams; words = v.words } };
}

/// The first field that no manifest has.
pub(crate) fn first_unknown(table: &Table) -> Option<&str>
    ensures { option_map (λ name. name.now) result ≡ first_unknown_of (table_view table.now) }
{
    for (name, _value) in table.iter() {
        if !is_known(name.as_str()) {
            return Some(name.as_str());
        }
    }
    None
}

/// Whether a manifest has a field of this name.
fn is_known(name: &str) -> bool
    ensures { result ≡ is_named known name.now }
{
    matches!(
        name,
        "coalition" | "edges" | "keys" | "script" | "stations" | "streams" | "words"
    )
}

/// The first required field that is absent.
pub(crate) fn first_absent(table: &Table) -> Option<&'static str>
    ensures { option_map (λ name. name.now) result ≡ first_absent_of (table_view table.now) }
{
    absent_among(table, &["edges", "keys", "stations", "streams", "words"])
}

/// The first of these names that a table does not have.
fn absent_among<'a>(table: &Table, names: &[&'a str]) -> Option<&'a str>
    ensures { option_map (λ name. name.now) result
        ≡ find (is_absent (table_view table.now)) (map (λ name. name.now) names.now) }
{
    for name in names {
        if value_at(table, *name).is_none() {
            return Some(*name);
        }
    }
    None
}

/// The values of all fields.
#[tactic(auto, unfolding(crate::specs::Fields::values_of))]
pub(crate) fn read_values(alloc: Global, table: &Table) -> Result<Values, Refusal<ManifestFault>>
    ensures { Answers result (values_of (table_view table.now)) }
{
    let coalition = wanted(alloc, table, "coalition")?;
    let edges = needed(alloc, table, "edges")?;
    let keys = needed(alloc, table, "keys")?;
    let script = wanted(alloc, table, "script")?;
    let stations = needed(alloc, table, "stations")?;
    let streams = needed(alloc, table, "streams")?;
    let words = needed(alloc, table, "words")?;
    Ok(Values {
        coalition: coalition.unwrap_or(Items::from_vec(Vec::new(alloc))),
        edges,
        keys,
        script,
        stations,
        streams,
        words,
    })
}

/// A required field as a kind.
fn needed<T: Kind>(alloc: Global, table: &Table, name: &str) -> Result<T, Refusal<ManifestFault>>
    ensures { Answers result (needed T.kind name.now (table_view table.now)) }
{
    match value_at(table, name) {
        Some(value) => of_kind(alloc, name, T::of(alloc, value)?),
        None => of_kind(alloc, name, None),
    }
}

/// An optional field as a kind.
fn wanted<T: Kind>(
    alloc: Global,
    table: &Table,
    name: &str,
) -> Result<Option<T>, Refusal<ManifestFault>>
    ensures { Answers result (wanted T.kind name.now (table_view table.now)) }
{
    match value_at(table, name) {
        Some(value) => Ok(Some(of_kind(alloc, name, T::of(alloc, value)?)?)),
        None => Ok(None),
    }
}

/// A value of a kind, or the fault that the field is of another kind.
fn of_kind<T: Drop>(
    alloc: Global,
    name: &str,
    value: Option<T>,
) -> Result<T, Refusal<ManifestFault>>
    ensures { Answers result (of_kind name.now value) }
{
    match value {
        Some(x) => Ok(x),
        None => {
            let name = Text::copy_of(alloc, name)?;
            Err(Refusal::Bad(ManifestFault::Kind { name }))
        }
    }
}

/// The value of a field.
fn value_at<'a>(table: &'a Table, name: &str) -> Option<&'a Value>
    ensures { option_map (λ v. view v.now) result ≡ get_member name.now (table_view table.now) }
{
    table.get(name)
}
