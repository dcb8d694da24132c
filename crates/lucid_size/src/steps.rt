// The replacements of the tokens of a part of a text.
ghost use Rattle.std.specs.Prelude.{◌≡◌, ◌≤◌, ◌++◌, ◌<◌, ◌&&◌, All, IfOk, None, OnOk, Some, length, option_map};
ghost use Rattle.lucid_lex.specs.Reading.{IsTokenOf};
ghost use Rattle.lucid_size.specs.Kinds as kinds;
ghost use Rattle.lucid_size.specs.Parts as parts;
ghost use Rattle.lucid_size.specs.Steps as spec;

use crate::kinds::{closes_width, is_name, opens_paren, opens_width};
use crate::names::Names;
use crate::step::{Form, Step};
use lucid_base::{Id, Items, Memory};
use lucid_lex::{Kind, Token, text_of};
use std::alloc::Global;

/// Adds the steps of the tokens from one number up to another. `width` is the name of the width, within a template.
pub(crate) fn add_steps(
    alloc: Global,
    steps: &mut Items<Step>,
    names: &Names,
    width: Option<&[u8]>,
    text: &[u8],
    tokens: &[Token],
    first: usize,
    end: usize,
) -> Result<(), Memory>
    requires stand { All (IsTokenOf text.now) tokens.now }
    requires order { first ≤ end }
    requires within { end ≤ length tokens.now }
    ensures { OnOk result (steps.new ≡ steps.old ++ parts.steps_between text.now names.now (option_map (λ w. w.now) width.entry) tokens.now first end) }
{
    let mut from = end_before(tokens, first);
    let mut more = 0;
    for at in first..end {
        let token = tokens[at];
        if more > 0 {
            more -= 1;
        } else {
            let form = form_at(alloc, text, names, width, &tokens[at..end])?;
            more = more_of(form);
            steps.push(Step { from, token, form })?;
        }
        from = token.span.end;
    }
    Ok(())
}

/// Where the token before this one ends.
pub(crate) fn end_before(tokens: &[Token], at: usize) -> usize
    requires { at ≤ length tokens.now }
    ensures { result ≡ parts.end_before at tokens.now }
{
    if at == 0 { 0 } else { tokens[at - 1].span.end }
}

/// Returns how many tokens behind the first go with it.
fn more_of(form: Form) -> usize
    ensures { result ≡ spec.more_of form }
{
    match form {
        Form::Kept | Form::Named => 0,
        Form::Width => 2,
        Form::Use(_, _) => 4,
    }
}

/// The replacement of the first of these tokens.
fn form_at(
    alloc: Global,
    text: &[u8],
    names: &Names,
    width: Option<&[u8]>,
    tokens: &[Token],
) -> Result<Form, Memory>
    requires { All (IsTokenOf text.now) tokens.now }
    ensures { IfOk result (λ form. form ≡ spec.form_at text.now names.now (option_map (λ w. w.now) width.entry) tokens.now) }
{
    match use_at(alloc, text, names, width, tokens) {
        Err(_) => Err(Memory),
        Ok(Some(form)) => Ok(form),
        Ok(None) => Ok(kept_or_width(width_at(text, width, tokens))),
    }
}

/// The replacement of a token that is no use.
fn kept_or_width(width: bool) -> Form
    ensures { result ≡ spec.or_width width None }
{
    if width { Form::Width } else { Form::Kept }
}

/// A template's name, `<<`, a size, `>>` and `(`.
fn use_at(
    alloc: Global,
    text: &[u8],
    names: &Names,
    width: Option<&[u8]>,
    tokens: &[Token],
) -> Result<Option<Form>, Memory>
    requires { All (IsTokenOf text.now) tokens.now }
    ensures { IfOk result (λ form. form ≡ spec.use_at text.now names.now (option_map (λ w. w.now) width.entry) tokens.now) }
{
    match tokens {
        [f, a, n, b, p, ..] => {
            if is_use(f.kind, a.kind, b.kind, p.kind) {
                use_of(alloc, names, text_of(text, *f), size_of(text, width, *n))
            } else {
                Ok(None)
            }
        }
        _ => Ok(None),
    }
}

/// Returns whether these are a name, `<<`, `>>` and `(`.
fn is_use(name: Kind, left: Kind, right: Kind, paren: Kind) -> bool
    ensures { result ≡ (kinds.is_name name && (kinds.opens_width left && (kinds.closes_width right && kinds.opens_paren paren))) }
{
    is_name(name) && (opens_width(left) && (closes_width(right) && opens_paren(paren)))
}

/// The use of the template with this name at this size, if there are both.
fn use_of(
    alloc: Global,
    names: &Names,
    name: &[u8],
    size: Option<Option<u64>>,
) -> Result<Option<Form>, Memory>
    requires { All (λ b. b < 128) name.now }
    ensures { IfOk result (λ form. form ≡ spec.use_by (spec.template_of names.now name.now) size) }
{
    let name = Id::new(alloc, name)?;
    let place = names.place_of(&name);
    drop(name);
    match place {
        None => Ok(None),
        Some(template) => Ok(use_at_size(template, size)),
    }
}

/// The use of this template at this size, if there is one.
fn use_at_size(template: usize, size: Option<Option<u64>>) -> Option<Form>
    ensures { result ≡ spec.use_by (Some template) size }
{
    match size {
        None => None,
        Some(size) => Some(Form::Use(template, size)),
    }
}

/// The size of a use, from the tokens between its `<<` and `>>`.
fn size_of(text: &[u8], width: Option<&[u8]>, token: Token) -> Option<Option<u64>>
    requires { IsTokenOf text.now token }
    ensures { result ≡ spec.size_of text.now (option_map (λ w. w.now) width.entry) token }
{
    size_by(is_width(text, width, token), token.kind)
}

/// The size of a token: its number, or the width of the instance where it is the name of the width.
fn size_by(own: bool, kind: Kind) -> Option<Option<u64>>
    ensures { result ≡ spec.size_by own kind }
{
    match kind {
        Kind::Number(n) => Some(Some(n)),
        _ => if own { Some(None) } else { None },
    }
}

/// `<< w >>`, with the name of the width.
fn width_at(text: &[u8], width: Option<&[u8]>, tokens: &[Token]) -> bool
    requires { All (IsTokenOf text.now) tokens.now }
    ensures { result ≡ spec.width_at text.now (option_map (λ w. w.now) width.entry) tokens.now }
{
    match tokens {
        [a, w, b, ..] => opens_width(a.kind) && (is_width(text, width, *w) && closes_width(b.kind)),
        _ => false,
    }
}

/// Returns whether the token is the name of the width.
fn is_width(text: &[u8], width: Option<&[u8]>, token: Token) -> bool
    requires { IsTokenOf text.now token }
    ensures { result ≡ spec.is_width text.now (option_map (λ w. w.now) width.entry) token }
{
    match width {
        None => false,
        Some(name) => is_name(token.kind) && text_of(text, token) == name,
    }
}
