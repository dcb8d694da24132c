// The number of underscores in the names of instances.
ghost use Rattle.std.specs.Prelude.{◌≡◌, ◌-◌, ◌^◌, ◌<◌, ◌≤◌, All, length};
ghost use Rattle.lucid_lex.specs.Reading.{IsTokenOf};
ghost use Rattle.lucid_size.specs.Suffix as suffix;

use crate::kinds::is_name;
use lucid_lex::{Token, text_of};

/// Returns the least number from 1 of underscores that no name has in a row.
pub(crate) fn underscores_in(text: &[u8], tokens: &[Token]) -> usize
    requires { All (IsTokenOf text.now) tokens.now }
    ensures { result ≡ suffix.underscores text.now tokens.now }
{
    let mut most = 0usize;
    for token in tokens {
        most = most.max(run_of(text, *token));
    }
    most + 1
}

/// Returns the longest run of underscores in a name; 0 for another token.
fn run_of(text: &[u8], token: Token) -> usize
    requires { IsTokenOf text.now token }
    ensures run { result ≡ suffix.run_of text.now token }
    ensures within { result ≤ length text.now }
{
    if is_name(token.kind) {
        longest_run(text_of(text, token))
    } else {
        0
    }
}

/// Returns the longest run of underscores.
fn longest_run(bytes: &[u8]) -> usize
    ensures run { result ≡ suffix.longest_run 0 0 bytes.now }
    ensures within { result ≤ length bytes.now }
{
    let mut most = 0usize;
    let mut run = 0usize;
    for byte in bytes {
        run = run_with(run, *byte);
        most = most.max(run);
    }
    most
}

/// Returns the run of underscores at the end, with one more byte.
fn run_with(run: usize, byte: u8) -> usize
    requires { run < 2 ^ 64 - 1 }
    ensures { result ≡ suffix.run_with run byte }
{
    if byte == b'_' { run + 1 } else { 0 }
}
