//! The values at the keys of a table, looked at or taken out.
ghost use Rattle.std.specs.Prelude.{◌≡◌, ◌≤◌, [], map, option_map, unwrap_or};
ghost use Rattle.std.specs.Option.{option_map_or};
ghost use Rattle.toml.specs.View.{view};
ghost use Rattle.toml.specs.Data.{as_str, as_integer, get};
ghost use Rattle.dine_reader.specs.Document.{end_in, has_key, is_second, items_at, items_in};
ghost use Rattle.dine_reader.specs.Document.{natural, number_at, resigns_in, text_at, version_in};

use std::alloc::Global;
use toml::Value;

/// Returns the items of the array at a key, none if there is no array.
#[tactic(auto, unfolding(crate::specs::Document::items_at))]
pub(crate) fn items_at<'a>(table: &'a Value, key: &str) -> &'a [Value]
    ensures { map view result.now ≡ items_at key.now (view table.now) }
{
    match table.get(key) {
        Some(value) => items_in(value),
        None => &[],
    }
}

/// Returns the items of an array. Another value has none.
pub(crate) fn items_in(value: &Value) -> &[Value]
    ensures { map view result.now ≡ items_in (view value.now) }
{
    match value.as_array() {
        Some(items) => items.as_slice(),
        None => &[],
    }
}

/// Takes the items of the array at a key out of a table, none if there is no array.
#[tactic(auto, unfolding(crate::specs::Document::items_at))]
pub(crate) fn take_items(alloc: Global, table: Value, key: &str) -> Vec<Value>
    ensures { map view result.items ≡ items_at key.now (view table) }
{
    match take(table, key) {
        Some(value) => items_of(alloc, value),
        None => Vec::new(alloc),
    }
}

// Takes the items out of an array. Another value has none.
fn items_of(alloc: Global, value: Value) -> Vec<Value>
    ensures { map view result.items ≡ items_in (view value) }
{
    match value {
        Value::Array(items) => items,
        _ => Vec::new(alloc),
    }
}

/// Takes the value at a key out of a table. Another value has none.
pub(crate) fn take(table: Value, key: &str) -> Option<Value>
    ensures { option_map view result ≡ get key.now (view table) }
{
    match table {
        Value::Table(mut members) => members.remove(key),
        _ => None,
    }
}

/// Returns the text at a key, empty if there is no text.
#[tactic(auto, unfolding(crate::specs::Document::text_at))]
pub(crate) fn text_at<'a>(table: &'a Value, key: &str) -> &'a str
    ensures { result.now ≡ text_at key.now (view table.now) }
{
    table.get(key).map_or("", text_in)
}

// The text that a value is, if it is one.
fn text_in(value: &Value) -> &str
    ensures { result.now ≡ unwrap_or (as_str (view value.now)) [] }
{
    value.as_str().unwrap_or("")
}

/// Returns whether there is a value at a key.
#[tactic(auto, unfolding(crate::specs::Document::has_key))]
pub(crate) fn has_key(table: &Value, key: &str) -> bool
    ensures { result ≡ has_key key.now (view table.now) }
{
    table.get(key).is_some()
}

/// Returns the whole number at a key, 0 if there is none or one below 0.
#[tactic(auto, unfolding(crate::specs::Document::number_at))]
pub(crate) fn number_at(table: &Value, key: &str) -> u64
    ensures { result ≡ number_at key.now (view table.now) }
{
    table.get(key).map_or(0, natural_in)
}

/// Returns the whole number that a value is, 0 if it is none or below 0.
pub(crate) fn natural_in(value: &Value) -> u64
    ensures { result ≡ option_map_or natural (as_integer (view value.now)) 0 }
{
    match value.as_integer() {
        Some(number) if number >= 0 => number as u64,
        _ => 0,
    }
}

/// Returns whether a document is of version 2 of the format.
pub(crate) fn is_second(document: &Value) -> bool
    ensures { result ≡ is_second (view document.now) }
{
    number_at(document, "version") == 2
}

/// Returns the version of a document that is not refused, 1 or 2.
pub(crate) fn version_in(document: &Value) -> u32
    ensures is { result ≡ version_in (view document.now) }
    ensures first { 1 ≤ result }
    ensures last { result ≤ 2 }
{
    if is_second(document) { 2 } else { 1 }
}

/// Returns whether a site drops the jobs that it has left after one failed, false if it has no `on_fault`.
#[tactic(auto, unfolding(crate::specs::Document::resigns_in))]
pub(crate) fn resigns_in(site: &Value) -> bool
    ensures { result ≡ resigns_in (view site.now) }
{
    text_at(site, "on_fault") == "resign"
}

/// Returns the name at a place of an edge's ends, empty if there is none.
pub(crate) fn end_in(edge: &Value, place: usize) -> &str
    ensures { result.now ≡ end_in place (view edge.now) }
{
    match edge.get("ends") {
        Some(ends) => match ends.get(place) {
            Some(value) => text_in(value),
            None => "",
        },
        None => "",
    }
}
