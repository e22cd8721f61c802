// The entries of `plugins` and `presets`.
ghost use Rattle.std.specs.Prelude.{◌≡◌, map, option_map};
ghost use Rattle.std.specs.List.{list_all, list_any};
ghost use Rattle.serde_json.specs.View.{view};
ghost use Rattle.babel_values.specs.Entries as spec;

use serde_json::Value;

/// The name of an entry, if the value is one: it is a text, or a list that begins with one. The entry's own value is
/// the second of the list.
pub fn name_of(item: &Value) -> Option<&str>
    ensures { option_map (λ name. name.now) result ≡ spec.name_of (view item.now) }
{
    match item.as_str() {
        Some(name) => Some(name),
        None => {
            if is_text_or_absent(item.get(2)) && item.get(3).is_none() {
                item.get(0).and_then(Value::as_str)
            } else {
                None
            }
        }
    }
}

fn is_text_or_absent(value: Option<&Value>) -> bool
    ensures { result ≡ spec.is_text_or_absent (option_map (λ v. view v.now) value.entry) }
{
    match value {
        Some(value) => value.is_string(),
        None => true,
    }
}

/// Whether the value is an entry of this name.
pub fn is_named(item: &Value, name: &str) -> bool
    ensures { result ≡ spec.is_named name.now (view item.now) }
{
    match name_of(item) {
        Some(own) => own == name,
        None => false,
    }
}

/// Whether the value is an entry.
pub fn is_entry(item: &Value) -> bool
    ensures { result ≡ spec.is_entry (view item.now) }
{
    name_of(item).is_some()
}

#[tactic(auto, using(crate::proofs::Lists::dropped))]
fn are_entries(items: &[Value]) -> bool
    ensures { result ≡ list_all spec.is_entry (map view items.now) }
{
    for item in items {
        if !is_entry(item) {
            return false;
        }
    }
    true
}

/// The entries of the list, if each of its items is one.
#[tactic(auto, using(crate::proofs::Lists::list_of_items))]
pub fn entries_in(value: &Value) -> Option<&[Value]>
    ensures { option_map (λ items. map view items.now) result ≡ spec.entries_in (view value.now) }
{
    let items = value.as_array()?;
    if are_entries(items) {
        Some(items.as_slice())
    } else {
        None
    }
}

/// Whether some entry has this name.
#[tactic(auto, using(crate::proofs::Lists::dropped))]
pub fn has_entry(items: &[Value], name: &str) -> bool
    ensures { result ≡ list_any (spec.is_named name.now) (map view items.now) }
{
    for item in items {
        if is_named(item, name) {
            return true;
        }
    }
    false
}

/// The last entry of this name.
#[tactic(auto, using(crate::proofs::Lists::dropped))]
pub fn last_entry<'a>(items: &'a [Value], name: &str) -> Option<&'a Value>
    ensures { option_map (λ item. view item.now) result ≡ spec.last_entry name.now (map view items.now) }
{
    let mut last = None;
    for item in items {
        if is_named(item, name) {
            last = Some(item);
        }
    }
    last
}

/// A member of the entry's own value.
pub fn option_of<'a>(item: &'a Value, name: &str) -> Option<&'a Value>
    ensures { option_map (λ v. view v.now) result ≡ spec.option_of name.now (view item.now) }
{
    match item.get(1) {
        Some(value) => value.get(name),
        None => None,
    }
}
