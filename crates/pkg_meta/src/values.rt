// Looking into JSON values.
ghost use Rattle.std.specs.Prelude.{◌≡◌, map, option_and_then, option_map, IfOk};
ghost use Rattle.std.specs.List.{filter_map};
ghost use Rattle.serde_json.specs.Find.{as_array, as_str, get};
ghost use Rattle.serde_json.specs.View.{items_view, view};
ghost use Rattle.pkg_meta.specs.Values.{flag_at, items_at, text_at, text_or_empty};

use nuget_version::{Many, NoMemory, Text};
use serde_json::Value;
use std::alloc::Global;

/// The text under a name, where there is one.
pub fn text_in<'a>(value: &'a Value, name: &str) -> Option<&'a str>
    ensures { option_map (λ t. t.now) result ≡ text_at name.now (view value.now) }
{
    value.get(name).and_then(Value::as_str)
}

// The text under a name, empty where there is none.
pub(crate) fn text_or_empty<'a>(value: &'a Value, name: &str) -> &'a str
    ensures { result.now ≡ text_or_empty name.now (view value.now) }
{
    text_in(value, name).unwrap_or("")
}

/// The truth value under a name, where there is one.
pub fn flag_in(value: &Value, name: &str) -> Option<bool>
    ensures { result ≡ flag_at name.now (view value.now) }
{
    value.get(name).and_then(Value::as_bool)
}

// The array under a name, where there is one.
fn array_in<'a>(value: &'a Value, name: &str) -> Option<&'a Vec<Value>>
    ensures { option_map (λ v. items_view v.now.items) result ≡ option_and_then as_array (get name.now (view value.now)) }
{
    value.get(name).and_then(Value::as_array)
}

/// The items of the array under a name, none where there is no array.
pub fn items_in<'a>(value: &'a Value, name: &str) -> &'a [Value]
    ensures { map view result.now ≡ items_at name.now (view value.now) }
{
    match array_in(value, name) {
        Some(items) => items.as_slice(),
        None => &[],
    }
}

/// A copy of the text under a name.
pub fn copy_text_in(alloc: Global, value: &Value, name: &str) -> Result<Option<Text>, NoMemory>
    ensures { IfOk result (λ t. t ≡ text_at name.now (view value.now)) }
{
    match text_in(value, name) {
        None => Ok(None),
        Some(text) => {
            let text = Text::copy_of(alloc, text)?;
            Ok(Some(text))
        }
    }
}

/// Copies of the texts among the values.
pub fn copy_texts_of(alloc: Global, values: &[Value]) -> Result<Many<Text>, NoMemory>
    ensures { IfOk result (λ texts. texts ≡ filter_map as_str (map view values.now)) }
{
    let mut texts = Many::new(alloc);
    for value in values {
        if let Some(text) = value.as_str() {
            texts.push(Text::copy_of(alloc, text)?)?;
        }
    }
    Ok(texts)
}
