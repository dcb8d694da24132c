// A text, cut into its templates and the parts outside them.
ghost use Rattle.std.specs.Prelude.{◌≡◌, ◌≤◌, ◌++◌, All, IfOk, Ok, OnOk, length, map};
ghost use Rattle.lucid_lex.specs.Reading.{IsTokenOf, Reads};
ghost use Rattle.lucid_size.specs.Parts as spec;
ghost use Rattle.lucid_size.specs.Places.{AreInOrder, InText, IsWhole};
ghost use Rattle.lucid_size.specs.Search.{AreWithin};
ghost use Rattle.lucid_size.specs.Templates as cutting;

use crate::names::Names;
use crate::step::{Form, Step};
use crate::steps::{add_steps, end_before};
use crate::template::Template;
use lucid_base::{Items, Memory};
use lucid_lex::{Token, text_of, tokens_stand};
use std::alloc::Global;

/// The steps outside the templates, and those of each template's body.
#[derive(Drop)]
pub(crate) struct Parts {
    pub(crate) outside: Items<Step>,
    pub(crate) bodies: Vec<Items<Step>>,
}

/// Cuts a text into its parts.
pub(crate) fn parts_of(
    alloc: Global,
    text: &[u8],
    tokens: &[Token],
    names: &Names,
    templates: &[Template],
) -> Result<Parts, Memory>
    requires stand { All (IsTokenOf text.now) tokens.now }
    requires order { AreInOrder tokens.now 0 templates.now }
    ensures outside { IfOk result (λ p. p.outside ≡ spec.outside_from text.now names.now tokens.now 0 templates.now) }
    ensures bodies { IfOk result (λ p. p.bodies.items ≡ map (spec.body_steps text.now names.now tokens.now) templates.now) }
{
    let mut cut = Parts {
        outside: Items::new(alloc),
        bodies: Vec::new(alloc),
    };
    match add_parts(alloc, &mut cut, text, tokens, names, templates) {
        Ok(()) => Ok(cut),
        Err(error) => {
            drop(cut);
            Err(error)
        }
    }
}

/// Adds the parts of a text.
fn add_parts(
    alloc: Global,
    cut: &mut Parts,
    text: &[u8],
    tokens: &[Token],
    names: &Names,
    templates: &[Template],
) -> Result<(), Memory>
    requires stand { All (IsTokenOf text.now) tokens.now }
    requires order { AreInOrder tokens.now 0 templates.now }
    ensures outside { OnOk result (cut.new.outside ≡ cut.old.outside ++ spec.outside_from text.now names.now tokens.now 0 templates.now) }
    ensures bodies { OnOk result (cut.new.bodies.items ≡ cut.old.bodies.items ++ map (spec.body_steps text.now names.now tokens.now) templates.now) }
{
    let mut from = 0;
    for template in templates {
        add_steps(
            alloc,
            &mut cut.outside,
            names,
            None,
            text,
            tokens,
            from,
            template.first,
        )?;
        let body = body_steps(alloc, text, tokens, names, *template)?;
        cut.bodies.push(body)?;
        from = template.end;
    }
    add_steps(
        alloc,
        &mut cut.outside,
        names,
        None,
        text,
        tokens,
        from,
        tokens.len(),
    )
}

/// Returns the steps of a template's tokens after its first `>>`.
fn body_steps(
    alloc: Global,
    text: &[u8],
    tokens: &[Token],
    names: &Names,
    template: Template,
) -> Result<Items<Step>, Memory>
    requires stand { All (IsTokenOf text.now) tokens.now }
    requires whole { IsWhole tokens.now template }
    ensures { IfOk result (λ steps. steps ≡ spec.body_steps text.now names.now tokens.now template) }
{
    let mut steps = Items::new(alloc);
    match add_body(alloc, &mut steps, text, tokens, names, template) {
        Ok(()) => Ok(steps),
        Err(error) => {
            drop(steps);
            Err(error)
        }
    }
}

/// Adds the steps of a template's body.
fn add_body(
    alloc: Global,
    steps: &mut Items<Step>,
    text: &[u8],
    tokens: &[Token],
    names: &Names,
    template: Template,
) -> Result<(), Memory>
    requires stand { All (IsTokenOf text.now) tokens.now }
    requires whole { IsWhole tokens.now template }
    ensures { OnOk result (steps.new ≡ steps.old ++ spec.body_steps text.now names.now tokens.now template) }
{
    let width = text_of(text, tokens[template.first + 2]);
    add_steps(
        alloc,
        steps,
        names,
        Some(width),
        text,
        tokens,
        template.first + 4,
        template.name,
    )?;
    let from = end_before(tokens, template.name);
    steps.push(Step {
        from,
        token: tokens[template.name],
        form: Form::Named,
    })?;
    add_steps(
        alloc,
        steps,
        names,
        Some(width),
        text,
        tokens,
        template.name + 1,
        template.end,
    )
}

/// A law: the templates of a text follow one another. Nothing runs.
pub(crate) fn templates_stand(text: &[u8], tokens: &[Token], templates: &[Template])
    requires reads { Reads text.now tokens.now }
    requires whole { cutting.templates tokens.now ≡ Ok templates.now }
    ensures stand { All (IsTokenOf text.now) tokens.now }
    ensures order { AreInOrder tokens.now 0 templates.now }
    ensures whole { All (IsWhole tokens.now) templates.now }
{
    tokens_stand(text, tokens);
}

/// A law: the steps of a text are in it, and use only its templates. Nothing runs.
pub(crate) fn parts_stand(
    text: &[u8],
    tokens: &[Token],
    templates: &[Template],
    outside: &[Step],
    bodies: &[Items<Step>],
)
    requires reads { Reads text.now tokens.now }
    requires whole { cutting.templates tokens.now ≡ Ok templates.now }
    requires outside { outside.now ≡ spec.outside_from text.now (spec.names_of text.now tokens.now templates.now) tokens.now 0 templates.now }
    requires bodies { bodies.now ≡ map (spec.body_steps text.now (spec.names_of text.now tokens.now templates.now) tokens.now) templates.now }
    ensures outer { All (λ s. s.from ≤ s.token.span.end) outside.now }
    ensures inner { All (All (λ s. s.from ≤ s.token.span.end)) bodies.now }
    ensures in_text { All (All (InText text.now)) bodies.now }
    ensures outside { AreWithin (length bodies.now) outside.now }
    ensures bodies { All (AreWithin (length bodies.now)) bodies.now }
    ensures same { length bodies.now ≡ length templates.now }
{}
