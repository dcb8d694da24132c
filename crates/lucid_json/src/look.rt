// Looking into a value. Each function returns the result of serde_json's definition of its name.
ghost use Rattle.std.specs.Prelude.{◌≡◌, option_map, option_and_then};
ghost use Rattle.serde_json.specs.Find.{get as get_of, at as at_of, as_array, as_number, as_object, as_str, as_u64};
ghost use Rattle.serde_json.specs.View.{view, items_view, members_view};

use crate::{Map, Value};

/// The member of that name, if this is an object that has it.
pub fn get<'v>(value: &'v Value, key: &str) -> Option<&'v Value>
    ensures { option_map (λ v. view v.now) result ≡ get_of key.now (view value.now) }
{
    value.get(key)
}

/// The item at that index, if this is an array that has it.
pub fn at(value: &Value, index: usize) -> Option<&Value>
    ensures { option_map (λ v. view v.now) result ≡ at_of index (view value.now) }
{
    value.get(index)
}

/// The text, if this is one.
pub fn text_in(value: &Value) -> Option<&str>
    ensures { option_map (λ s. s.now) result ≡ as_str (view value.now) }
{
    value.as_str()
}

/// The number, if this is one that is written by digits alone and is below 2^64.
pub fn number_in(value: &Value) -> Option<u64>
    ensures { result ≡ option_and_then as_u64 (as_number (view value.now)) }
{
    value.as_u64()
}

/// The items, if this is an array.
pub fn items_in(value: &Value) -> Option<&[Value]>
    ensures { option_map (λ list. items_view list.now) result ≡ as_array (view value.now) }
{
    match value.as_array() {
        None => None,
        Some(list) => Some(list.as_slice()),
    }
}

/// The members, if this is an object, in the order of their keys.
pub fn members_in(value: &Value) -> Option<&Map<String, Value>>
    ensures { option_map (λ map. members_view map.now.entries) result ≡ as_object (view value.now) }
{
    value.as_object()
}
