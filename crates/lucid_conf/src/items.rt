// Parts of an item. Each function is the word of its name in specs/Fields.antt; a part that is not there, or of another kind, is None.
ghost use Rattle.std.specs.Prelude.{◌≡◌, option_map};
ghost use Rattle.serde_json.specs.View.{view};
ghost use Rattle.lucid_conf.specs.Fields.{number_at as number_at_place, number_of as number_under, text_at as text_at_place};
ghost use Rattle.lucid_conf.specs.Fields.{text_of as text_under, args_of as args_in};

use lucid_base::Args;
use lucid_json::{Value, at, get, items_in, number_in, text_in};

// The most arguments of an event.
const MOST_ARGS: usize = 8;

/// The number at a place of a list.
pub(crate) fn number_at(value: &Value, place: usize) -> Option<u64>
    ensures { result ≡ number_at_place place (view value.now) }
{
    match at(value, place) {
        None => None,
        Some(found) => number_in(found),
    }
}

/// The number under a key of an object.
pub(crate) fn number_of(value: &Value, key: &str) -> Option<u64>
    ensures { result ≡ number_under key.now (view value.now) }
{
    match get(value, key) {
        None => None,
        Some(found) => number_in(found),
    }
}

/// The text at a place of a list.
pub(crate) fn text_at(value: &Value, place: usize) -> Option<&str>
    ensures { option_map (λ s. s.now) result ≡ text_at_place place (view value.now) }
{
    match at(value, place) {
        None => None,
        Some(found) => text_in(found),
    }
}

/// The text under a key of an object.
pub(crate) fn text_of<'v>(value: &'v Value, key: &str) -> Option<&'v str>
    ensures { option_map (λ s. s.now) result ≡ text_under key.now (view value.now) }
{
    match get(value, key) {
        None => None,
        Some(found) => text_in(found),
    }
}

/// The numbers of a list of at most 8 numbers.
pub(crate) fn args_of(value: &Value) -> Option<Args>
    ensures { result ≡ args_in (view value.now) }
{
    let mut args = Args::new();
    for item in items_in(value)? {
        match number_in(item) {
            Some(n) if args.as_slice().len() < MOST_ARGS => args.push(n),
            _ => return None,
        }
    }
    Some(args)
}
