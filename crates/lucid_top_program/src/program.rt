// From a program's text to the program: the path that every command takes which names a program file.
ghost use Rattle.std.specs.Prelude.{IfOk};
ghost use Rattle.lucid_effects_spec.specs.Order.{IsAccepted};
ghost use Rattle.lucid_lex.specs.Reading.{Reads};
ghost use Rattle.lucid_top_words.specs.Outcome.{Prepares};
ghost use Rattle.lucid_top_program.specs.Program.{IsElaborated, IsParsed, IsProgram, IsProgramFrom, IsProgramOf, IsRead};
ghost use Rattle.lucid_top_program.specs.Source.{IsSourceOf, text_of};

use crate::causes::{of_parse, of_types};
use crate::order::in_order;
use crate::source::{Source, tokens_of};
use lucid_base::uncounted;
use lucid_core::Core;
use lucid_lex::Token;
use lucid_parse::{Tree, parse};
use lucid_seed::Seeded;
use lucid_top_words::Refusal;
use lucid_types::elaborate;
use std::alloc::Global;
use std::marker::Brand;

/// Returns the program of this text, expanded first, or the reason why it has none (`IsProgram`). Its functions and handlers touch arrays
/// in order.
pub fn accepted(alloc: Global, text: &[u8]) -> Result<Core, Refusal>
    ensures program { Prepares (IsProgram text.now) (λ core. core) result }
    ensures accepted { IfOk result IsAccepted }
{
    let source = Source::read(alloc, text)?;
    accepted_source(alloc, text, source)
}

// The program of the source of the text.
fn accepted_source(alloc: Global, text: &[u8], source: Source) -> Result<Core, Refusal>
    requires { IsSourceOf text.now source }
    ensures program { Prepares (IsRead (text_of text.now source)) (λ core. core) result }
    ensures accepted { IfOk result IsAccepted }
{
    match source {
        Source::AsWritten(tokens) => accepted_tokens(alloc, text, tokens),
        Source::Expanded(expanded) => accepted_text(alloc, expanded.as_slice()),
    }
}

// The program of a text without templates.
fn accepted_text(alloc: Global, text: &[u8]) -> Result<Core, Refusal>
    ensures program { Prepares (IsRead text.now) (λ core. core) result }
    ensures accepted { IfOk result IsAccepted }
{
    let tokens = tokens_of(alloc, text)?;
    accepted_tokens(alloc, text, tokens)
}

// The program that the tokens of the text spell. The tokens are dropped once there is a tree.
fn accepted_tokens(alloc: Global, text: &[u8], tokens: Vec<Token>) -> Result<Core, Refusal>
    requires { Reads text.now tokens.items }
    ensures program { Prepares (IsProgramFrom text.now tokens.items) (λ core. core) result }
    ensures accepted { IfOk result IsAccepted }
{
    let tree = tree_instead(alloc, text, tokens)?;
    accepted_tree(alloc, Seeded::by(text), &tree)
}

fn accepted_tree(alloc: Global, seeded: Seeded, tree: &Tree) -> Result<Core, Refusal>
    ensures program { Prepares (IsProgramOf tree.now) (λ core. core) result }
    ensures accepted { IfOk result IsAccepted }
{
    let core = core_of(alloc, seeded, tree)?;
    in_order::<Brand>(alloc, tree, core, uncounted())
}

// The tree of the tokens of the text, which are dropped.
fn tree_instead(alloc: Global, text: &[u8], tokens: Vec<Token>) -> Result<Tree, Refusal>
    requires { Reads text.now tokens.items }
    ensures { Prepares (IsParsed text.now tokens.items) (λ tree. tree) result }
{
    tree_of(alloc, text, tokens.as_slice())
}

// The tree of the tokens of the text.
fn tree_of(alloc: Global, text: &[u8], tokens: &[Token]) -> Result<Tree, Refusal>
    requires { Reads text.now tokens.now }
    ensures { Prepares (IsParsed text.now tokens.now) (λ tree. tree) result }
{
    match parse(alloc, text, tokens) {
        Ok(tree) => Ok(tree),
        Err(error) => Err(of_parse(error)),
    }
}

// The core of the tree.
fn core_of(alloc: Global, seeded: Seeded, tree: &Tree) -> Result<Core, Refusal>
    ensures { Prepares (IsElaborated tree.now) (λ core. core) result }
{
    match elaborate(alloc, seeded, tree) {
        Ok(core) => Ok(core),
        Err(error) => Err(of_types(error)),
    }
}
