// The source of a program's text: the text in which functions over a width are expanded.
ghost use Rattle.std.specs.Prelude.{◌≡◌, ◌≤◌, [], IfOk, Ok, length};
ghost use Rattle.lucid_size.specs.Expansion.{most};
ghost use Rattle.lucid_size.specs.Templates.{templates};
ghost use Rattle.lucid_lex.specs.Reading.{Reads};
ghost use Rattle.lucid_top_words.specs.Outcome.{IsTheAnswer, Prepares};
ghost use Rattle.lucid_top_program.specs.Program.{AreTokens, IsExpanded, IsSource};
ghost use Rattle.lucid_top_program.specs.Source.{IsSourceOf, text_of};

use crate::causes::{of_lex, of_size};
use crate::law;
use lucid_lex::{Token, lex};
use lucid_size::{expand, has_template};
use lucid_top_words::Refusal;
use std::alloc::Global;

/// The most bytes of a text that is its own source.
const MOST: usize = 8_388_608;

/// The source of a text. Contracts see its text (`text_of`).
#[derive(Drop)]
pub enum Source {
    /// The text itself, of which these are the tokens: nothing in it is to be expanded.
    AsWritten(Vec<Token>),
    /// The expanded text.
    Expanded(Vec<u8>),
}

impl Source {
    /// Returns the source of a program's text, or the reason why it has none (`IsSource`): it has no tokens, or its functions over a width
    /// can't be expanded. A text without such functions isn't copied.
    pub fn read(alloc: Global, text: &[u8]) -> Result<Source, Refusal>
        ensures source { Prepares (IsSource text.now) (text_of text.now) result }
        ensures is { IfOk result (IsSourceOf text.now) }
    {
        let tokens = tokens_of(alloc, text)?;
        expanded(alloc, text, tokens)
    }

    /// Returns the text of the source, where `text` is the one that it was made of.
    pub fn text<'a>(&'a self, text: &'a [u8]) -> &'a [u8]
        ensures { result.now ≡ text_of text.now self.now }
    {
        match self {
            Source::AsWritten(_) => text,
            Source::Expanded(expanded) => expanded.as_slice(),
        }
    }
}

// The expansion of the text of these tokens.
fn expanded(alloc: Global, text: &[u8], tokens: Vec<Token>) -> Result<Source, Refusal>
    requires { IsTheAnswer (AreTokens text.now) (Ok tokens.items) }
    ensures source { Prepares (IsExpanded text.now tokens.items) (text_of text.now) result }
    ensures is { IfOk result (IsSourceOf text.now) }
{
    if text.len() <= MOST && !has_template(tokens.as_slice()) {
        Ok(as_written(text, tokens))
    } else {
        expanded_whole(alloc, text, tokens.as_slice())
    }
}

// The text itself, in which nothing is to be expanded.
fn as_written(text: &[u8], tokens: Vec<Token>) -> Source
    requires tokens { IsTheAnswer (AreTokens text.now) (Ok tokens.items) }
    requires plain { templates tokens.items ≡ Ok [] }
    requires short { length text.now ≤ most }
    ensures source { IsTheAnswer (IsExpanded text.now tokens.items) (Ok (text_of text.now result)) }
    ensures is { IsSourceOf text.now result }
{
    let read = tokens.as_slice();
    law::expansions_are_read(text, read);
    law::plain_text_stays(text, read);
    Source::AsWritten(tokens)
}

// The expansion of a text of these tokens, written out.
fn expanded_whole(alloc: Global, text: &[u8], tokens: &[Token]) -> Result<Source, Refusal>
    requires { IsTheAnswer (AreTokens text.now) (Ok tokens.now) }
    ensures source { Prepares (IsExpanded text.now tokens.now) (text_of text.now) result }
    ensures is { IfOk result (IsSourceOf text.now) }
{
    law::expansions_are_read(text, tokens);
    match expand(alloc, text, tokens) {
        Ok(expanded) => Ok(Source::Expanded(expanded)),
        Err(error) => Err(of_size(error)),
    }
}

/// Returns the tokens of the text.
pub(crate) fn tokens_of(alloc: Global, text: &[u8]) -> Result<Vec<Token>, Refusal>
    ensures tokens { Prepares (AreTokens text.now) (λ tokens. tokens.items) result }
    ensures read { IfOk result (λ tokens. Reads text.now tokens.items) }
{
    match lex(alloc, text) {
        Ok(tokens) => Ok(tokens),
        Err(error) => Err(of_lex(error)),
    }
}
