// The words of the call, as the machine gives them.
ghost use Rattle.std.specs.Prelude.{◌≡◌, ◌≢◌, IfErr, IfOk, drop};
ghost use Rattle.std.specs.declared.io.ErrorKind.TheVariants as kinds;
ghost use Rattle.std.specs.Vec.Iter.{into_iter_items};

use lucid_top_words::Refusal;
use std::alloc::Global;
use std::env;
use std::io::ErrorKind;

/// Returns the words without the first, which is the program's name. `Memory` if an allocation fails.
pub(crate) fn take_words(alloc: Global, given: env::Args) -> Result<Vec<String>, Refusal>
    ensures words { IfOk result (λ ws. ws.items ≡ drop 1 (into_iter_items given)) }
    ensures memory { IfErr result (λ r. r ≡ Refusal.Memory) }
{
    let mut given = given;
    given.next();
    let mut words = Vec::new(alloc);
    for word in given {
        if words.push(word).is_err() {
            return Err(Refusal::Memory);
        }
    }
    Ok(words)
}

/// Returns what is refused if the machine gives no words: `Usage` if a word is not UTF-8, since such a word is part of no form of words,
/// and otherwise `Memory`.
pub(crate) fn classify(kind: ErrorKind) -> Refusal
    ensures usage { kind ≡ kinds.InvalidData → result ≡ Refusal.Usage }
    ensures memory { kind ≢ kinds.InvalidData → result ≡ Refusal.Memory }
{
    if kind == ErrorKind::InvalidData {
        Refusal::Usage
    } else {
        Refusal::Memory
    }
}
