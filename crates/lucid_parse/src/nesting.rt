// How deeply tokens nest. The counts are taken over the tokens alone, before there is a tree, and bound the recursion of
// all that reads or walks a tree.
ghost use Rattle.std.specs.Prelude.{◌≡◌, ◌≤◌, false, map};
ghost use Rattle.lucid_parse.specs.Nesting as spec;

use lucid_lex::{Kind, Sign, Token, Word};

/// The most open brackets.
const MAX_OPEN: usize = 64;
/// The most tokens in a row without `;`, `{` or `}`.
const MAX_RUN: usize = 256;
/// The most `else` in one piece of the outermost level.
const MAX_ELSES: usize = 256;

/// The counts after some tokens.
#[derive(Clone, Copy)]
pub(crate) struct Counts {
    /// Brackets `(` and `{` that are open.
    brackets: usize,
    /// Tokens since the last `;`, `{` or `}`.
    run: usize,
    /// `else` tokens of the piece.
    elses: usize,
    /// Whether the last token is a `}` that leaves no bracket open, so that anything but `else` begins a new piece.
    ended: bool,
}

/// The number, from 1, of the first token at which a count passes its limit.
pub(crate) fn too_deep(tokens: &[Token]) -> Option<usize>
    ensures { result ≡ spec.too_deep (map (λ t. t.kind) tokens.now) }
{
    let mut counts = Counts {
        brackets: 0,
        run: 0,
        elses: 0,
        ended: false,
    };
    for (i, token) in tokens.iter().enumerate() {
        counts = counted(counts, token.kind);
        if passes(counts) {
            return Some(i + 1);
        }
    }
    None
}

fn passes(counts: Counts) -> bool
    ensures { result ≡ spec.passes counts }
{
    counts.brackets > MAX_OPEN || counts.run > MAX_RUN || counts.elses > MAX_ELSES
}

/// The counts after one more token.
fn counted(counts: Counts, kind: Kind) -> Counts
    requires { spec.passes counts ≡ false }
    ensures { result ≡ spec.counted counts kind }
{
    let brackets = brackets_after(counts.brackets, kind);
    Counts {
        brackets,
        run: run_after(counts.run, kind),
        elses: elses_after(counts, brackets, kind),
        ended: ends(brackets, kind),
    }
}

fn brackets_after(brackets: usize, kind: Kind) -> usize
    requires { brackets ≤ 64 }
    ensures { result ≡ spec.brackets_after brackets kind }
{
    match kind {
        Kind::Sign(Sign::OpenParen) | Kind::Sign(Sign::OpenBrace) => brackets + 1,
        Kind::Sign(Sign::CloseParen) | Kind::Sign(Sign::CloseBrace) => brackets.saturating_sub(1),
        _ => brackets,
    }
}

fn run_after(run: usize, kind: Kind) -> usize
    requires { run ≤ 256 }
    ensures { result ≡ spec.run_after run kind }
{
    match kind {
        Kind::Sign(Sign::Semicolon) | Kind::Sign(Sign::OpenBrace) | Kind::Sign(Sign::CloseBrace) =>
            0,
        _ => run + 1,
    }
}

fn elses_after(counts: Counts, brackets: usize, kind: Kind) -> usize
    requires { counts.elses ≤ 256 }
    ensures { result ≡ spec.elses_after counts brackets kind }
{
    let kept = if counts.ended { 0 } else { counts.elses };
    match kind {
        Kind::Word(Word::Else) => counts.elses + 1,
        Kind::Sign(Sign::Semicolon) => { if brackets == 0 { 0 } else { kept } }
        _ => kept,
    }
}

fn ends(brackets: usize, kind: Kind) -> bool
    ensures { result ≡ spec.ends brackets kind }
{
    match kind {
        Kind::Sign(Sign::CloseBrace) => brackets == 0,
        _ => false,
    }
}
