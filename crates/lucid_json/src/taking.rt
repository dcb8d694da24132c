// Moving parts out of a value. Each function gives what serde_json's definition of its name gives of the value.
ghost use Rattle.std.specs.Prelude.{◌≡◌, List, ℕ, None, option_map, bytes_eq, if◌then◌else◌};
ghost use Rattle.serde_json.specs.Find.{get as get_of, as_array};
ghost use Rattle.serde_json.specs.View.{view, items_view};

use crate::Value;

/// Moves out the member of that name, if this is an object that has it. The other members stay.
#[tactic(auto, using(crate::proofs::TakingLemmas::found))]
pub fn take(value: &mut Value, key: &str) -> Option<Value>
    ensures taken { option_map view result ≡ get_of key.now (view value.old) }
    ensures left { (name : List ℕ) → get_of name (view value.new) ≡ (if bytes_eq key.now name then None else get_of name (view value.old)) }
{
    match value.take() {
        Value::Object(mut members) => {
            let taken = members.remove(key);
            *value = Value::Object(members);
            taken
        }
        other => {
            *value = other;
            None
        }
    }
}

/// The items, if this is an array.
pub fn into_items(value: Value) -> Option<Vec<Value>>
    ensures { option_map (λ list. items_view list.items) result ≡ as_array (view value) }
{
    match value {
        Value::Array(list) => Some(list),
        _ => None,
    }
}
