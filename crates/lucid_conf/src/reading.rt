// Reading a value key by key. Each function is the word of its name in specs/Reading.antt.
ghost use Rattle.std.specs.Prelude.{◌≡◌, List, ℕ, IfOk, IfErr, Ok, None, bytes_eq, if◌then◌else◌};
ghost use Rattle.serde_json.specs.Find.{get as get_of};
ghost use Rattle.serde_json.specs.View.{view, items_view, members_view};
ghost use Rattle.lucid_conf.specs.Answers.{Reads, Refuses, Gives, Fails};
ghost use Rattle.lucid_conf.specs.Keys.{name_of, is_known as is_known_name};
ghost use Rattle.lucid_conf.specs.Reading.{IsBetween, bad as bad_key, or_bad_at, all_known as all_are_known, file as file_read};
ghost use Rattle.lucid_conf.specs.Reading.{number as number_read, required as required_read, items as items_read};

use crate::{ConfError, Key};
use lucid_json::{Map, Unread, Value, get, into_items, items_in, members_in, number_in, take};
use std::alloc::Global;

/// Reads the value that the bytes spell.
pub(crate) fn value_of(alloc: Global, bytes: &[u8]) -> Result<Value, ConfError>
    ensures ok { IfOk result (λ v. Reads bytes.now (view v)) }
    ensures err { IfErr result (λ e. Refuses e (λ d. Ok d) bytes.now) }
{
    match lucid_json::value_of(alloc, bytes) {
        Ok(value) => Ok(value),
        Err(Unread::Memory) => Err(ConfError::Memory),
        Err(Unread::NotJson) => Err(ConfError::NotJson),
    }
}

/// This key fails.
pub(crate) fn bad<T>(key: Key) -> Result<T, ConfError>
    ensures { Gives result (bad_key key) }
{
    Err(ConfError::BadField { key, place: None })
}

/// This key fails, and the item at this place is its first bad one.
pub(crate) fn bad_at<T>(key: Key, place: usize) -> Result<T, ConfError>
    ensures { Gives result (or_bad_at key place None) }
{
    match u32::try_from(place) {
        Ok(place) => Err(ConfError::BadField {
            key,
            place: Some(place),
        }),
        // No memory holds this many items.
        Err(_) => Err(ConfError::Memory),
    }
}

fn is_known(keys: &[Key], text: &str) -> bool
    ensures { result ≡ is_known_name keys.now text.now }
{
    keys.iter().any(|key| key.name() == text)
}

fn all_known(keys: &[Key], members: &Map<String, Value>) -> bool
    ensures { result ≡ all_are_known keys.now (members_view members.now.entries) }
{
    for (key, _) in members.iter() {
        if !is_known(keys, key.as_str()) {
            return false;
        }
    }
    true
}

/// The value is an object, and has none but these keys.
pub(crate) fn file(value: &Value, keys: &[Key]) -> Result<(), ConfError>
    ensures { Gives result (file_read (view value.now) keys.now) }
{
    match members_in(value) {
        None => bad(Key::File),
        Some(members) => {
            if all_known(keys, members) {
                Ok(())
            } else {
                bad(Key::Other)
            }
        }
    }
}

/// A number from `least` to `most`, or the default where the key is absent.
pub(crate) fn number(
    value: &Value,
    key: Key,
    least: u64,
    most: u64,
    default: u64,
) -> Result<u64, ConfError>
    requires { IsBetween least most default }
    ensures value { Gives result (number_read (view value.now) key least most default) }
    ensures within { IfOk result (IsBetween least most) }
{
    match get(value, key.name()) {
        None => Ok(default),
        Some(found) => match number_in(found) {
            Some(n) if least <= n && n <= most => Ok(n),
            _ => bad(key),
        },
    }
}

/// A number that has to be there.
pub(crate) fn required(value: &Value, key: Key) -> Result<u64, ConfError>
    ensures { Gives result (required_read (view value.now) key) }
{
    match get(value, key.name()) {
        None => bad(key),
        Some(found) => match number_in(found) {
            None => bad(key),
            Some(n) => Ok(n),
        },
    }
}

/// The items of a list, none if the key is absent.
pub(crate) fn items(value: &Value, key: Key) -> Result<&[Value], ConfError>
    ensures ok { IfOk result (λ items. items_read (view value.now) key ≡ Ok (items_view items.now)) }
    ensures err { IfErr result (λ e. Fails e (items_read (view value.now) key)) }
{
    match get(value, key.name()) {
        None => Ok(&[]),
        Some(found) => match items_in(found) {
            None => bad(key),
            Some(list) => Ok(list),
        },
    }
}

/// Moves out the items of a list, none if the key is absent. The other keys stay.
pub(crate) fn take_items(
    alloc: Global,
    value: &mut Value,
    key: Key,
) -> Result<Vec<Value>, ConfError>
    ensures ok { IfOk result (λ items. items_read (view value.old) key ≡ Ok (items_view items.items)) }
    ensures err { IfErr result (λ e. Fails e (items_read (view value.old) key)) }
    ensures left { (name : List ℕ) → get_of name (view value.new) ≡ (if bytes_eq (name_of key) name then None else get_of name (view value.old)) }
{
    match take(value, key.name()) {
        None => Ok(Vec::new(alloc)),
        Some(found) => match into_items(found) {
            None => bad(key),
            Some(list) => Ok(list),
        },
    }
}
