// Whole programs: one declaration after another.
ghost use Rattle.std.specs.Prelude.{◌≡◌, ◌≢◌, ℕ, ◌+◌, ◌-◌, ◌<◌, ◌≤◌, [], length, drop, count_by, ◌==◌, All, Some, None, IfOk, IfErr, OnOk, IsErrOf, MatchResult};
ghost use Rattle.lucid_lex.specs.Reading.{Reads, IsTokenOf};
ghost use Rattle.lucid_parse_tree.specs.declared.tree.Tree.{Tree};
ghost use Rattle.lucid_parse_spec.specs.Lexemes.{lexemes_of};
ghost use Rattle.lucid_parse.specs.Nesting as nesting;
ghost use Rattle.lucid_parse.specs.Program as spec;
ghost use Rattle.lucid_parse.specs.Program.{kinds_of, IsTreeOf, IsFault, Progress, IsWhy, Rising};

use crate::declaration::declaration;
use crate::error::ParseError;
use crate::nesting::too_deep;
use lucid_base::Items;
use lucid_lex::{Token, tokens_stand};
use lucid_parse_expression::{Stop, Tokens};
use lucid_parse_spec::declarations_are_read_as_spelled;
use lucid_parse_tree::{Decl, Tree};
use std::alloc::Global;

/// The tree of the program whose tokens these are, if no count of nesting passes its limit and there is one: the tree that
/// the grammar builds, that the tokens spell, and whose lines are those of its declarations' first tokens (`IsTreeOf`).
///
/// `TooDeep` has the number, from 1, of the first token at which a count of nesting passes its limit (`too_deep`); it is tried
/// first, over all tokens. `NoTree` has the number, from 1, of the token with which the first declaration begins that has no
/// tree: the tokens before it are the longest front of the tokens that is a program's (`IsFault`). Memory is the one answer
/// without a cause.
pub fn parse(alloc: Global, text: &[u8], tokens: &[Token]) -> Result<Tree, ParseError>
    requires { Reads text.now tokens.now }

    // The answer is true.
    ensures tree { IfOk result (λ tree. IsTreeOf text.now tokens.now tree) }
    ensures shallow { OnOk result (nesting.too_deep (kinds_of tokens.now) ≡ None) }
    ensures too_deep { (n : ℕ) → IsErrOf result (ParseError.TooDeep n) → nesting.too_deep (kinds_of tokens.now) ≡ Some n }
    ensures no_tree { (n : ℕ) → IsErrOf result (ParseError.NoTree n)
        → (nesting.too_deep (kinds_of tokens.now) ≡ None) × IsFault (lexemes_of text.now tokens.now) n }

    // The truth is answered, unless memory runs out.
    ensures parses { (tree : Tree) → nesting.too_deep (kinds_of tokens.now) ≡ None → IsTreeOf text.now tokens.now tree
        → MatchResult result (λ answer. answer ≡ tree) (λ e. e ≡ ParseError.Memory) }
    ensures refuses_deep { (n : ℕ) → nesting.too_deep (kinds_of tokens.now) ≡ Some n
        → MatchResult result (λ _. ⊥) (λ e. e ≢ ParseError.Memory → e ≡ ParseError.TooDeep n) }
    ensures refuses { (n : ℕ) → nesting.too_deep (kinds_of tokens.now) ≡ None → IsFault (lexemes_of text.now tokens.now) n
        → MatchResult result (λ _. ⊥) (λ e. e ≢ ParseError.Memory → e ≡ ParseError.NoTree n) }

    // The tokens have one tree at most.
    ensures one { (tree other : Tree) → IsTreeOf text.now tokens.now tree → IsTreeOf text.now tokens.now other → tree ≡ other }
{
    tokens_stand(text, tokens);
    declarations_are_read_as_spelled();
    if let Some(n) = too_deep(tokens) {
        return Err(ParseError::TooDeep(n));
    }
    tree_of(alloc, text, tokens)
}

/// The tree that the tokens spell, with their lines.
fn tree_of(alloc: Global, text: &[u8], tokens: &[Token]) -> Result<Tree, ParseError>
    requires stand { All (IsTokenOf text.now) tokens.now }
    requires order { Rising 0 tokens.now }
    ensures read { IfOk result (λ tree. Progress text.now tokens.now (lexemes_of text.now tokens.now) tree.decls []) }
    ensures why { IfErr result (λ e. IsWhy (lexemes_of text.now tokens.now) e) }
{
    declarations_are_read_as_spelled();
    let mut decls = Items::new(alloc);
    let mut rest = Tokens::new(text, tokens);
    let mut line = 1;
    let mut from = 0;
    'each: while rest.len() > 0 {
        let at = tokens.len() - rest.len();
        match declaration(alloc, rest) {
            Err(Stop::Memory) => return Err(ParseError::Memory),
            Err(Stop::NoTree) => return Err(ParseError::NoTree(at + 1)),
            Ok((kind, after)) => {
                let start = start_of(text, tokens, at, from);
                line = line_at(text, line, from, start);
                from = start;
                decls.push(Decl { line, kind })?;
                rest = after;
            }
        }
    }
    Ok(Tree { decls })
}

/// Where the token at this place begins, which is not before `from`.
fn start_of(text: &[u8], tokens: &[Token], at: usize, from: usize) -> usize
    requires stand { All (IsTokenOf text.now) tokens.now }
    requires within { at < length tokens.now }
    requires order { Rising from (drop at tokens.now) }
    ensures line { spec.line_of text.now (drop at tokens.now) ≡ spec.line_at text.now result }
    ensures after { from ≤ result }
    ensures within { result ≤ length text.now }
    ensures order { (k : ℕ) → at < k → Rising result (drop k tokens.now) }
{
    tokens[at].span.start
}

/// The line of the offset `to`, from that of an offset before it.
fn line_at(text: &[u8], line: u32, from: usize, to: usize) -> u32
    requires order { from ≤ to }
    requires within { to ≤ length text.now }
    requires line { line ≡ spec.line_at text.now from }
    ensures { result ≡ spec.line_at text.now to }
{
    match u32::try_from(breaks(&text[from..to])) {
        Ok(breaks) => line.saturating_add(breaks),
        Err(_) => u32::MAX,
    }
}

/// Returns how many line feeds there are.
fn breaks(bytes: &[u8]) -> usize
    ensures { result ≡ count_by (λ b. b == 10) bytes.now }
{
    bytes.iter().filter(|byte| **byte == b'\n').count()
}
