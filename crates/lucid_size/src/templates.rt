// Which templates a text has.
ghost use Rattle.std.specs.Prelude.{◌≡◌, ◌≢◌, ◌&&◌, ◌-◌, ◌++◌, ◌∷◌, ◌+◌, ◌<◌, ◌≤◌, [], IfErr, IfOk, IfSome, Ok, OnOk, Some, drop, false, length, true};
ghost use Rattle.lucid_size.specs.Cutting as kept;
ghost use Rattle.lucid_size.specs.Kinds as kinds;
ghost use Rattle.lucid_size.specs.Templates as spec;
ghost use Rattle.lucid_size.specs.declared.template.Template.{Template};

use crate::error::SizeError;
use crate::kinds::{
    closes_brace, closes_width, is_fun, is_name, open_after, opens_brace, opens_paren, opens_width,
};
use crate::template::Template;
use lucid_lex::{Kind, Token};
use std::alloc::Global;

/// Returns the templates of a text, in order; or the first that is broken.
pub(crate) fn templates(alloc: Global, tokens: &[Token]) -> Result<Vec<Template>, SizeError>
    ensures ok { IfOk result (λ xs. spec.templates tokens.now ≡ Ok xs.items) }
    ensures err { IfErr result (λ e. kept.Tells (spec.templates tokens.now) e) }
{
    let mut cutting = Cutting {
        found: Vec::new(alloc),
        opened: 0,
        more: 0,
    };
    for at in 0..tokens.len() {
        cutting.step(tokens, at)?;
    }
    Ok(cutting.found)
}

/// Returns whether a template begins in the text. Where none does the text is its own expansion, as `plain_text_stays` says.
pub fn has_template(tokens: &[Token]) -> bool
    ensures none { result ≡ false → spec.templates tokens.now ≡ Ok [] }
    ensures some { result ≡ true → spec.templates tokens.now ≢ Ok [] }
{
    let mut opened = 0;
    for at in 0..tokens.len() {
        if opened == 0 && begins_template(&tokens[at..]) {
            return true;
        }
        opened = open_after(opened, tokens[at].kind);
    }
    false
}

/// While templates are looked for.
#[derive(Drop)]
struct Cutting {
    found: Vec<Template>,
    /// Brackets that are open.
    opened: usize,
    /// Tokens that are still part of the last template.
    more: usize,
}

impl Cutting {
    /// Goes one token on.
    fn step(&mut self, tokens: &[Token], at: usize) -> Result<(), SizeError>
        requires there { at < length tokens.now }
        requires few { self.old.opened ≤ at }
        ensures few { OnOk result (self.new.opened ≤ at + 1) }
        ensures ok { OnOk result (kept.before_those self.new.found.items (spec.templates_from (at + 1) self.new.opened self.new.more (drop (at + 1) tokens.now))
            ≡ kept.before_those self.old.found.items (spec.templates_from at self.old.opened self.old.more (drop at tokens.now))) }
        ensures err { IfErr result (λ e. kept.Tells (kept.before_those self.old.found.items (spec.templates_from at self.old.opened self.old.more (drop at tokens.now))) e) }
    {
        if self.more > 0 {
            self.more -= 1;
            self.opened = open_after(self.opened, tokens[at].kind);
            return Ok(());
        }
        if self.opened == 0 && begins_template(&tokens[at..]) {
            return self.add(tokens, at);
        }
        self.opened = open_after(self.opened, tokens[at].kind);
        Ok(())
    }

    /// Adds the template that begins here.
    fn add(&mut self, tokens: &[Token], at: usize) -> Result<(), SizeError>
        requires { at + 4 ≤ length tokens.now }
        ensures kept { OnOk result (self.new.opened ≡ self.old.opened) }
        ensures ok { OnOk result ((x : Template) × (spec.template_at at (drop at tokens.now) ≡ Some x) × (self.new.found.items ≡ self.old.found.items ++ x ∷ []) × (self.new.more ≡ x.end - (at + 1)) × (self.new.opened ≡ self.old.opened)) }
        ensures err { IfErr result (λ e. kept.Fails (spec.template_at at (drop at tokens.now)) at e) }
    {
        match template_at(tokens, at) {
            None => Err(SizeError::Broken(at + 1)),
            Some(template) => {
                self.found.push(template)?;
                self.more = template.end - (at + 1);
                Ok(())
            }
        }
    }
}

/// `fun << w >>`, with a name.
fn begins_template(tokens: &[Token]) -> bool
    ensures { result ≡ spec.begins_template tokens.now }
{
    match tokens {
        [f, a, w, b, ..] => is_fun(f.kind)
            && (opens_width(a.kind) && (is_name(w.kind) && closes_width(b.kind))),
        _ => false,
    }
}

/// Returns the template that begins at a token, if it is whole.
#[tactic(auto, using(crate::proofs::Scans::template_at_is))]
fn template_at(tokens: &[Token], first: usize) -> Option<Template>
    requires { first + 4 ≤ length tokens.now }
    ensures template { result ≡ spec.template_at first (drop first tokens.now) }
    ensures within { IfSome result (λ t. (first < t.end) × (t.end ≤ length tokens.now)) }
{
    let name = name_from(tokens, first + 4)?;
    let end = end_from(tokens, first + 4)?;
    Some(Template { first, name, end })
}

/// Returns the first name that `(` follows, from a token on, before any `{`.
fn name_from(tokens: &[Token], from: usize) -> Option<usize>
    requires { from ≤ length tokens.now }
    ensures { result ≡ spec.name_from from (drop from tokens.now) }
{
    for at in from + 1..tokens.len() {
        if opens_brace(tokens[at - 1].kind) {
            return None;
        }
        if begins_call(tokens[at - 1].kind, tokens[at].kind) {
            return Some(at - 1);
        }
    }
    None
}

/// Returns a name and `(`.
fn begins_call(name: Kind, paren: Kind) -> bool
    ensures { result ≡ (kinds.is_name name && kinds.opens_paren paren) }
{
    is_name(name) && opens_paren(paren)
}

/// Returns the token behind the `}` that closes the first `{`, from a token on.
fn end_from(tokens: &[Token], from: usize) -> Option<usize>
    requires { from ≤ length tokens.now }
    ensures end { result ≡ spec.end_from from 0 (drop from tokens.now) }
    ensures within { IfSome result (λ end. (from < end) × (end ≤ length tokens.now)) }
{
    let mut opened = 0usize;
    for at in from..tokens.len() {
        if opens_brace(tokens[at].kind) {
            opened += 1;
        } else if closes_brace(tokens[at].kind) && opened == 1 {
            return Some(at + 1);
        } else if closes_brace(tokens[at].kind) {
            opened = opened.saturating_sub(1);
        }
    }
    None
}
