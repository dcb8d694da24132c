// Numbers among the words.
ghost use Rattle.std.specs.Prelude.{◌≡◌, ◌<◌, IfSome, [], ◌∷◌, ◌++◌, ℕ, List, map, option_map, string_bytes};
ghost use Rattle.lucid_top_words.specs.Words.{number_of, numbers_of, arguments_of, count_of};

use itoa::Buffer;
use lucid_base::Args;

/// Returns the arguments that the words write, all of which are numbers; within, None if there are more than any event has.
pub fn arguments(words: &[String]) -> Option<Option<Args>>
    ensures { result ≡ option_map arguments_of (numbers_of (map string_bytes words.now)) }
{
    let mut args = Some(Args::new());
    for word in words {
        args = with_argument(args, number(word.as_str())?);
    }
    Some(args)
}

// One argument more.
fn with_argument(args: Option<Args>, n: u64) -> Option<Args>
    ensures { (before : List ℕ) → args ≡ arguments_of before → result ≡ arguments_of (before ++ n ∷ []) }
{
    let mut args = args?;
    if args.as_slice().len() == 8 {
        return None;
    }
    args.push(n);
    Some(args)
}

/// Returns the number below `2^64` that a word writes in decimal digits without a leading zero.
pub(crate) fn number(word: &str) -> Option<u64>
    ensures { result ≡ number_of word.now }
{
    match word.parse::<u64>() {
        Ok(n) => {
            let mut buffer = Buffer::new();
            if buffer.format(n) == word {
                Some(n)
            } else {
                None
            }
        }
        Err(_) => None,
    }
}

/// Returns the number from 1 to 10,000 that a word writes.
pub(crate) fn count(word: &str) -> Option<u32>
    ensures count { result ≡ count_of word.now }
    ensures some { IfSome result (λ n. 0 < n) }
{
    let n = number(word)?;
    if 1 <= n && n <= 10_000 {
        Some(n as u32)
    } else {
        None
    }
}
