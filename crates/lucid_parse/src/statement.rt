// Statements, and the blocks of them. `depth` bounds their nesting; if it is the number of the tokens, it never runs out, and the limits
// on nesting, which are tried before, bound the recursion by far less.
ghost use Rattle.std.specs.Prelude.{◌≡◌, Some, option_map};
ghost use Rattle.lucid_parse_expression.specs.Reads.{Reads, Gives};
ghost use Rattle.lucid_parse_expression.specs.Tokens.{said};
ghost use Rattle.lucid_parse_spec.specs.ReadStatement as spec;
ghost use Rattle.lucid_parse_tree.specs.declared.tree.S.TheVariants as s;

use crate::simple::simple;
use lucid_base::{Boxed, Items};
use lucid_lex::{Sign, Word};
use lucid_parse_expression::{
    Lexeme, Stop, Tokens, added, after, after_name, ended, expect, expect_word, expression, some,
};
use lucid_parse_tree::{C, E, No, S};
use std::alloc::Global;

/// A block: statements in braces.
#[tactic(auto, unfolding(lucid_parse_spec::specs::ReadStatement::body))]
pub(crate) fn body(alloc: Global, tokens: Tokens) -> Result<(Items<S>, Tokens), Stop>
    ensures { Reads result (spec.body (said tokens.entry)) }
{
    block(alloc, tokens.len(), tokens)
}

#[cycle(statement)]
#[tactic(auto, unfolding(lucid_parse_spec::specs::ReadStatement::block))]
fn block(alloc: Global, depth: usize, tokens: Tokens) -> Result<(Items<S>, Tokens), Stop>
    ensures { Reads result (spec.block (spec.inner_at depth).statement (said tokens.entry)) }
{
    let rest = expect(Sign::OpenBrace, tokens)?;
    ended(Sign::CloseBrace, statements(alloc, depth, rest)?)
}

/// The statements up to a `}`.
#[cycle(statement)]
#[tactic(auto, unfolding(lucid_parse_spec::specs::ReadStatement::statements, lucid_parse_spec::specs::Reader::repeat))]
fn statements(alloc: Global, depth: usize, tokens: Tokens) -> Result<(Items<S>, Tokens), Stop>
    ensures { Reads result (spec.statements (spec.inner_at depth).statement (said tokens.entry)) }
{
    let mut all = Items::new(alloc);
    let mut rest = tokens;
    for _turn in 0..tokens.len() {
        match after(Sign::CloseBrace, rest) {
            Some(_) => return Ok((all, rest)),
            None => match statement(alloc, depth, rest) {
                Ok(next) => {
                    let (longer, after) = added(all, next)?;
                    all = longer;
                    rest = after;
                }
                Err(stop) => {
                    drop(all);
                    return Err(stop);
                }
            },
        }
    }
    Ok((all, rest))
}

/// Reads a statement with at most `depth` statements within one another.
#[cycle(statement)]
#[tactic(auto, unfolding(lucid_parse_spec::specs::ReadStatement::inner_at))]
fn statement(alloc: Global, depth: usize, tokens: Tokens) -> Result<(S, Tokens), Stop>
    ensures { Reads result ((spec.inner_at depth).statement (said tokens.entry)) }
{
    if depth == 0 {
        return Err(Stop::NoTree);
    }
    statement_within(alloc, depth - 1, tokens)
}

#[cycle(statement)]
#[tactic(auto, unfolding(lucid_parse_spec::specs::ReadStatement::statement_within))]
fn statement_within(alloc: Global, depth: usize, tokens: Tokens) -> Result<(S, Tokens), Stop>
    ensures { Reads result (spec.statement_within (spec.inner_at depth) (said tokens.entry)) }
{
    match tokens.split() {
        Some((Lexeme::Word(Word::If), rest)) => { conditional(alloc, choice(alloc, depth, rest)?) }
        Some((Lexeme::Word(Word::Match), rest)) => matched(alloc, depth, rest),
        _ => simple(alloc, tokens),
    }
}

/// The statement of a choice.
fn conditional<'a>(alloc: Global, choice: (C, Tokens<'a>)) -> Result<(S, Tokens<'a>), Stop>
    ensures { Reads result (Some (s.Cond choice.entry.0, said choice.entry.1)) }
{
    let (choice, rest) = choice;
    Ok((S::Cond(Boxed::new(alloc, choice)?), rest))
}

/// The condition, in parentheses.
#[inline(never)]
#[tactic(auto, unfolding(lucid_parse_spec::specs::ReadStatement::condition))]
fn condition(alloc: Global, tokens: Tokens) -> Result<(E, Tokens), Stop>
    ensures { Reads result (spec.condition (said tokens.entry)) }
{
    let rest = expect(Sign::OpenParen, tokens)?;
    ended(Sign::CloseParen, expression(alloc, rest)?)
}

/// Reads a statement after `if`.
#[cycle(statement)]
#[tactic(auto, unfolding(lucid_parse_spec::specs::ReadStatement::inner_at, lucid_parse_spec::specs::ReadStatement::choice_within))]
fn choice(alloc: Global, depth: usize, tokens: Tokens) -> Result<(C, Tokens), Stop>
    ensures { Reads result ((spec.inner_at depth).choice (said tokens.entry)) }
{
    if depth == 0 {
        return Err(Stop::NoTree);
    }
    let (test, rest) = condition(alloc, tokens)?;
    let (yes, rest) = block(alloc, depth - 1, rest)?;
    let (no, rest) = alternative(alloc, depth - 1, rest)?;
    Ok((C { test, yes, no }, rest))
}

#[cycle(statement)]
#[tactic(auto, unfolding(lucid_parse_spec::specs::ReadStatement::alternative))]
fn alternative(alloc: Global, depth: usize, tokens: Tokens) -> Result<(No, Tokens), Stop>
    ensures { Reads result (spec.alternative (spec.inner_at depth) (said tokens.entry)) }
{
    match tokens.split() {
        Some((Lexeme::Word(Word::Else), behind)) => match behind.split() {
            Some((Lexeme::Word(Word::If), rest)) => else_if(alloc, choice(alloc, depth, rest)?),
            _ => {
                let (block, rest) = block(alloc, depth, behind)?;
                Ok((No::Block(block), rest))
            }
        },
        _ => Ok((No::Absent, tokens)),
    }
}

/// Returns an `else` that is followed by this choice.
fn else_if<'a>(alloc: Global, choice: (C, Tokens<'a>)) -> Result<(No, Tokens<'a>), Stop>
    ensures { Reads result (Some (No.Cond choice.entry.0, said choice.entry.1)) }
{
    let (choice, rest) = choice;
    Ok((No::Cond(Boxed::new(alloc, choice)?), rest))
}

/// The beginning of a case, up to its block.
#[tactic(auto, unfolding(lucid_parse_spec::specs::ReadStatement::case_head))]
fn case_head(tokens: Tokens) -> Option<(u64, Tokens)>
    ensures { option_map (λ h. (h.0, said h.1)) result ≡ spec.case_head (said tokens.entry) }
{
    match after(Sign::Or, tokens) {
        Some(rest) => match rest.split() {
            Some((Lexeme::Number(n), rest)) => match after(Sign::Arrow, rest) {
                Some(rest) => Some((n, rest)),
                None => None,
            },
            _ => None,
        },
        None => None,
    }
}

#[cycle(statement)]
#[tactic(auto, unfolding(lucid_parse_spec::specs::ReadStatement::cases, lucid_parse_spec::specs::Reader::repeat))]
fn cases(
    alloc: Global,
    depth: usize,
    tokens: Tokens,
) -> Result<(Items<(u64, Items<S>)>, Tokens), Stop>
    ensures { Reads result (spec.cases (spec.inner_at depth).statement (said tokens.entry)) }
{
    let mut all = Items::new(alloc);
    let mut rest = tokens;
    for _turn in 0..tokens.len() {
        match case_head(rest) {
            None => return Ok((all, rest)),
            Some((n, more)) => match block(alloc, depth, more) {
                Ok((block, after)) => {
                    let (longer, after) = added(all, ((n, block), after))?;
                    all = longer;
                    rest = after;
                }
                Err(stop) => {
                    drop(all);
                    return Err(stop);
                }
            },
        }
    }
    Ok((all, rest))
}

/// The beginning of the last arm, up to its block.
#[tactic(auto, unfolding(lucid_parse_spec::specs::ReadStatement::last_head))]
fn last_head(tokens: Tokens) -> Option<Tokens>
    ensures { option_map (λ rest. said rest) result ≡ spec.last_head (said tokens.entry) }
{
    match after(Sign::Or, tokens) {
        Some(rest) => match after_name(b"_", rest) {
            Some(rest) => after(Sign::Arrow, rest),
            None => None,
        },
        None => None,
    }
}

#[cycle(statement)]
#[tactic(auto, unfolding(lucid_parse_spec::specs::ReadStatement::last_arm))]
fn last_arm(alloc: Global, depth: usize, tokens: Tokens) -> Result<(Option<Items<S>>, Tokens), Stop>
    ensures { Reads result (spec.last_arm (spec.inner_at depth).statement (said tokens.entry)) }
{
    match last_head(tokens) {
        None => Ok((None, tokens)),
        Some(rest) => {
            let (block, rest) = block(alloc, depth, rest)?;
            Ok((Some(block), rest))
        }
    }
}

/// The matched expressions, up to the cases.
#[tactic(auto, unfolding(lucid_parse_spec::specs::ReadStatement::match_head))]
fn match_head(alloc: Global, tokens: Tokens) -> Result<(E, Tokens), Stop>
    ensures { Reads result (spec.match_head (said tokens.entry)) }
{
    let (test, rest) = expression(alloc, tokens)?;
    match expect_word(Word::With, rest) {
        Ok(rest) => Ok((test, rest)),
        Err(stop) => {
            drop(test);
            Err(stop)
        }
    }
}

/// A match has a case at least.
fn match_of(test: E, cases: Items<(u64, Items<S>)>, last: Option<Items<S>>) -> Result<S, Stop>
    ensures { Gives result (spec.match_of test cases last) }
{
    match some(cases) {
        Ok(cases) => Ok(S::Match { test, cases, last }),
        Err(stop) => {
            drop(test);
            drop(last);
            Err(stop)
        }
    }
}

/// Reads a statement after `match`.
#[cycle(statement)]
#[tactic(auto, unfolding(lucid_parse_spec::specs::ReadStatement::matched))]
fn matched(alloc: Global, depth: usize, tokens: Tokens) -> Result<(S, Tokens), Stop>
    ensures { Reads result (spec.matched (spec.inner_at depth).statement (said tokens.entry)) }
{
    let (test, rest) = match_head(alloc, tokens)?;
    match cases(alloc, depth, rest) {
        Ok((cases, rest)) => match last_arm(alloc, depth, rest) {
            Ok((last, rest)) => Ok((match_of(test, cases, last)?, rest)),
            Err(stop) => {
                drop(test);
                drop(cases);
                Err(stop)
            }
        },
        Err(stop) => {
            drop(test);
            Err(stop)
        }
    }
}
