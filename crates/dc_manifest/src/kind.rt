//! The kinds of fields, and a value read as one of them.

ghost use Rattle.std.specs.Prelude.{Option, option_and_then, ◌≡◌, IfOk};
ghost use Rattle.toml.specs.Data.{Data, as_integer, as_str};
ghost use Rattle.toml.specs.View.{view, items_view};
ghost use Rattle.dc_manifest.specs.Fields.{each_item, array_of, as_pair, two_of};

use dc_field::{Items, NoMemory, Text};
use std::alloc::Global;
use toml::Value;

/// A kind of values.
pub(crate) trait Kind: Drop {
    ghost kind: { Data → Option Self };

    /// A value as this kind, or None where it is of another kind.
    fn of(alloc: Global, value: &Value) -> Result<Option<Self>, NoMemory>
        ensures { IfOk result (λ o. o ≡ kind (view value.now)) };
}

impl Kind for i64 {
    ghost kind = { as_integer };

    fn of(_alloc: Global, value: &Value) -> Result<Option<i64>, NoMemory> {
        Ok(value.as_integer())
    }
}

impl Kind for (i64, i64) {
    ghost kind = { as_pair };

    fn of(_alloc: Global, value: &Value) -> Result<Option<(i64, i64)>, NoMemory> {
        match value.as_array() {
            Some(array) => Ok(pair_of(array.as_slice())),
            None => Ok(None),
        }
    }
}

impl Kind for Text {
    ghost kind = { as_str };

    fn of(alloc: Global, value: &Value) -> Result<Option<Text>, NoMemory> {
        match value.as_str() {
            Some(text) => Ok(Some(Text::copy_of(alloc, text)?)),
            None => Ok(None),
        }
    }
}

impl<T: Kind> Kind for Items<T> {
    ghost kind = { array_of T.kind };

    fn of(alloc: Global, value: &Value) -> Result<Option<Items<T>>, NoMemory> {
        match value.as_array() {
            Some(array) => each_of(alloc, array.as_slice()),
            None => Ok(None),
        }
    }
}

/// Two integers.
#[tactic(auto, using(crate::proofs::ItemsRead::fewer_than_two, crate::proofs::ItemsRead::more_than_two))]
fn pair_of(values: &[Value]) -> Option<(i64, i64)>
    ensures { result ≡ option_and_then two_of (each_item as_integer (items_view values.now)) }
{
    match values {
        [u, v] => match (u.as_integer(), v.as_integer()) {
            (Some(u), Some(v)) => Some((u, v)),
            _ => None,
        },
        _ => None,
    }
}

/// All values as one kind, or None where one is of another kind.
fn each_of<T: Kind>(alloc: Global, values: &[Value]) -> Result<Option<Items<T>>, NoMemory>
    ensures { IfOk result (λ o. o ≡ each_item T.kind (items_view values.now)) }
{
    let mut items = Vec::new(alloc);
    for value in values {
        match T::of(alloc, value)? {
            Some(item) => items.push(item)?,
            None => return Ok(None),
        }
    }
    Ok(Some(Items::from_vec(items)))
}
