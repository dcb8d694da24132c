// The whole expanded text, part by part.
ghost use Rattle.std.specs.Prelude.{◌≡◌, ◌≤◌, ◌<◌, ◌++◌, [], All, IfOk, List, None, OnOk, length, map, slice_get, ℕ};
ghost use Rattle.lucid_lex.specs.Reading.{Reads, joined};
ghost use Rattle.lucid_size.specs.Expansion.{instances, written_from};
ghost use Rattle.lucid_size.specs.Parts as parts;
ghost use Rattle.lucid_size.specs.Pieces.{pieces_of};
ghost use Rattle.lucid_size.specs.Places.{AreInOrder, InText};
ghost use Rattle.lucid_size.specs.Widths.{IsRisingOf, widths_in};

use crate::names::Names;
use crate::step::{Instance, Step};
use crate::steps::{add_steps, end_before};
use crate::template::Template;
use crate::widths::{deal, rising};
use crate::writing::{put, write_instances, write_steps};
use lucid_base::{Items, Memory};
use lucid_lex::{Token, tokens_stand};
use std::alloc::Global;

/// Writes the text outside the templates, and for each template its instances.
pub(crate) fn write_whole(
    alloc: Global,
    text: &[u8],
    tokens: &[Token],
    names: &Names,
    templates: &[Template],
    bodies: &[Items<Step>],
    found: &[Instance],
    underscores: usize,
) -> Result<Vec<u8>, Memory>
    requires reads { Reads text.now tokens.now }
    requires order { AreInOrder tokens.now 0 templates.now }
    requires bodies { bodies.now ≡ map (parts.body_steps text.now names.now tokens.now) templates.now }
    requires same { length bodies.now ≡ length templates.now }
    requires in_text { All (All (InText text.now)) bodies.now }
    requires within { All (λ i. i.template < length bodies.now) found.now }
    ensures { IfOk result (λ out. out.items ≡ joined (written_from text.now tokens.now underscores names.now (widths_in found.now) 0 0 templates.now) []) }
{
    let mut out = Vec::new(alloc);
    match write_parts(
        alloc,
        &mut out,
        text,
        tokens,
        names,
        templates,
        bodies,
        found,
        underscores,
    ) {
        Ok(()) => Ok(out),
        Err(error) => {
            drop(out);
            Err(error)
        }
    }
}

/// Writes the parts of the text, in their order.
fn write_parts(
    alloc: Global,
    out: &mut Vec<u8>,
    text: &[u8],
    tokens: &[Token],
    names: &Names,
    templates: &[Template],
    bodies: &[Items<Step>],
    found: &[Instance],
    underscores: usize,
) -> Result<(), Memory>
    requires reads { Reads text.now tokens.now }
    requires order { AreInOrder tokens.now 0 templates.now }
    requires bodies { bodies.now ≡ map (parts.body_steps text.now names.now tokens.now) templates.now }
    requires same { length bodies.now ≡ length templates.now }
    requires in_text { All (All (InText text.now)) bodies.now }
    requires within { All (λ i. i.template < length bodies.now) found.now }
    ensures { OnOk result (out.new.items ≡ out.old.items ++ joined (written_from text.now tokens.now underscores names.now (widths_in found.now) 0 0 templates.now) []) }
{
    let dealt = deal(alloc, found, bodies.len())?;
    let mut from = 0;
    for at in 0..templates.len() {
        let template = templates[at];
        write_outside(
            alloc,
            out,
            text,
            tokens,
            names,
            underscores,
            from,
            template.first,
        )?;
        write_used(
            alloc,
            out,
            text,
            underscores,
            bodies[at].as_slice(),
            dealt[at].as_slice(),
        )?;
        from = template.end;
    }
    let written = write_outside(
        alloc,
        out,
        text,
        tokens,
        names,
        underscores,
        from,
        tokens.len(),
    );
    drop(dealt);
    written
}

/// Writes the instances of a template at the widths in its row, each once and rising.
fn write_used(
    alloc: Global,
    out: &mut Vec<u8>,
    text: &[u8],
    underscores: usize,
    body: &[Step],
    row: &[u64],
) -> Result<(), Memory>
    requires { All (InText text.now) body.now }
    ensures { OnOk result ((widths : List ℕ) × IsRisingOf row.now widths × (out.new.items ≡ out.old.items ++ joined (instances text.now underscores body.now widths) [])) }
{
    let widths = rising(alloc, row)?;
    let written = write_instances(out, text, underscores, body, widths.as_slice());
    drop(widths);
    written
}

/// Writes the tokens outside all templates from one number up to another, with the blanks and comments behind them.
fn write_outside(
    alloc: Global,
    out: &mut Vec<u8>,
    text: &[u8],
    tokens: &[Token],
    names: &Names,
    underscores: usize,
    first: usize,
    end: usize,
) -> Result<(), Memory>
    requires reads { Reads text.now tokens.now }
    requires order { first ≤ end }
    requires within { end ≤ length tokens.now }
    ensures { OnOk result (out.new.items ≡ out.old.items ++ (joined (pieces_of text.now underscores 0 (parts.steps_between text.now names.now None tokens.now first end)) [] ++ (parts.gap_before text.now tokens.now end).bytes)) }
{
    write_between(alloc, out, text, tokens, names, underscores, first, end)?;
    write_gap(out, text, tokens, end)
}

/// Writes the tokens outside all templates from one number up to another.
fn write_between(
    alloc: Global,
    out: &mut Vec<u8>,
    text: &[u8],
    tokens: &[Token],
    names: &Names,
    underscores: usize,
    first: usize,
    end: usize,
) -> Result<(), Memory>
    requires reads { Reads text.now tokens.now }
    requires order { first ≤ end }
    requires within { end ≤ length tokens.now }
    ensures { OnOk result (out.new.items ≡ out.old.items ++ joined (pieces_of text.now underscores 0 (parts.steps_between text.now names.now None tokens.now first end)) []) }
{
    tokens_stand(text, tokens);
    let mut steps = Items::new(alloc);
    match add_steps(alloc, &mut steps, names, None, text, tokens, first, end) {
        Ok(()) => {}
        Err(error) => {
            drop(steps);
            return Err(error);
        }
    }
    steps_stand(text, tokens, names, first, end, steps.as_slice());
    let written = write_steps(out, text, underscores, 0, steps.as_slice());
    drop(steps);
    written
}

/// A law: the steps outside all templates are in the text. Nothing runs.
fn steps_stand(
    text: &[u8],
    tokens: &[Token],
    names: &Names,
    first: usize,
    end: usize,
    steps: &[Step],
)
    requires reads { Reads text.now tokens.now }
    requires order { first ≤ end }
    requires within { end ≤ length tokens.now }
    requires steps { steps.now ≡ parts.steps_between text.now names.now None tokens.now first end }
    ensures { All (InText text.now) steps.now }
{}

/// Writes the blanks and comments before a token, or at the end of the text.
fn write_gap(out: &mut Vec<u8>, text: &[u8], tokens: &[Token], at: usize) -> Result<(), Memory>
    requires reads { Reads text.now tokens.now }
    requires within { at ≤ length tokens.now }
    ensures { OnOk result (out.new.items ≡ out.old.items ++ (parts.gap_before text.now tokens.now at).bytes) }
{
    gap_stands(text, tokens, at);
    put(
        out,
        &text[end_before(tokens, at)..start_at(text, tokens, at)],
    )
}

/// A law: the blanks and comments before a token are in the text. Nothing runs.
fn gap_stands(text: &[u8], tokens: &[Token], at: usize)
    requires reads { Reads text.now tokens.now }
    requires within { at ≤ length tokens.now }
    ensures order { parts.end_before at tokens.now ≤ parts.start_of text.now (slice_get tokens.now at) }
    ensures within { parts.start_of text.now (slice_get tokens.now at) ≤ length text.now }
{}

/// Where this token begins, or the text ends.
fn start_at(text: &[u8], tokens: &[Token], at: usize) -> usize
    ensures { result ≡ parts.start_of text.now (slice_get tokens.now at) }
{
    if at < tokens.len() {
        tokens[at].span.start
    } else {
        text.len()
    }
}
