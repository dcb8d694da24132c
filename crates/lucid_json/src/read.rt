// From bytes to a value.
ghost use Rattle.std.specs.Prelude.{◌≡◌, Some, None, Err, IfOk, IsUtf8};
ghost use Rattle.serde_json.specs.Read.{read as read_text};
ghost use Rattle.serde_json.specs.View.{view};
ghost use Rattle.lucid_json.specs.declared.read.Unread.TheVariants as unread;

use crate::Value;
use std::alloc::Global;

/// Why bytes give no value.
#[derive(Clone, Copy)]
pub enum Unread {
    /// They are no JSON: not UTF-8, no JSON value, more than 127 lists and objects within one another, or a number past the range of a float.
    NotJson,
    /// Memory ran out.
    Memory,
}

/// Reads the value that the bytes spell.
pub fn value_of(alloc: Global, bytes: &[u8]) -> Result<Value, Unread>
    ensures ok { IfOk result (λ v. IsUtf8 bytes.now × (read_text bytes.now ≡ Some (view v))) }
    ensures none { result ≡ Err unread.NotJson → IsUtf8 bytes.now → read_text bytes.now ≡ None }
{
    match Value::from_slice(alloc, bytes) {
        Ok(value) => Ok(value),
        Err(error) => {
            if error.is_memory() {
                Err(Unread::Memory)
            } else {
                Err(Unread::NotJson)
            }
        }
    }
}
