// The expansion of a text.
ghost use Rattle.std.specs.Prelude.{◌≡◌, ◌⊎◌, ◌<◌, ◌≤◌, All, IfErr, IfOk, IsErrOf, IsOkAnd, List, Ok, length, map, ℕ};
ghost use Rattle.lucid_lex.specs.Piece.{Piece};
ghost use Rattle.lucid_lex.specs.Reading.{Reads, tokens_from};
ghost use Rattle.lucid_size.specs.declared.error.SizeError.TheVariants.{Broken, Memory, TooBig, Twice};
ghost use Rattle.lucid_size.specs.Expansion.{ExpandsTo, IsBroken, IsExpansion, IsTooBig, IsTwice, most};
ghost use Rattle.lucid_size.specs.Bytes.{steps_len};
ghost use Rattle.lucid_size.specs.Error.{NeedsMore, Refuses};
ghost use Rattle.lucid_size.specs.Names.{AreNames};
ghost use Rattle.lucid_size.specs.Parts as spec;
ghost use Rattle.lucid_size.specs.Search.{AreUsed, AreWithin};
ghost use Rattle.lucid_size.specs.Templates as cutting;

use crate::assembly::write_whole;
use crate::error::SizeError;
use crate::names::{Names, names_of};
use crate::parts::{parts_of, parts_stand, templates_stand};
use crate::room::room_behind;
use crate::step::{Instance, Step};
use crate::template::Template;
use crate::templates::templates;
use crate::underscores::underscores_in;
use crate::used::find_used;
use lucid_base::Items;
use lucid_lex::Token;
use lucid_seed::Seeded;
use std::alloc::Global;

/// The most bytes of an expanded text.
const MOST: usize = 8_388_608;

/// Expands the text: replaces each template by its used instances and keeps all else. `tokens` are those that `lex` returns for the text;
/// so `lex` reads the result, too, as the tokens of its pieces.
///
/// The causes of an error are tried in this order. `Broken` has the number, from 1, of the first `fun` whose template has no name, no `{`
/// or no `}`. `Twice` has the first name that an earlier template has. `TooBig` means that the expanded text has more than 8,388,608
/// bytes. Memory is the one answer without a cause. Takes no more memory than for the tokens and for some 12 MiB of text.
pub fn expand(alloc: Global, text: &[u8], tokens: &[Token]) -> Result<Vec<u8>, SizeError>
    requires { Reads text.now tokens.now }
    // The answer is true.
    ensures ok { IfOk result (λ out. ExpandsTo text.now tokens.now out.items) }
    ensures small { IfOk result (λ out. length out.items ≤ most) }
    ensures broken { (n : ℕ) → IsErrOf result (Broken n) → IsBroken tokens.now n }
    ensures twice { (name : List ℕ) → IsErrOf result (Twice name) → IsTwice text.now tokens.now name }
    ensures too_big { IsErrOf result TooBig → IsTooBig text.now tokens.now }

    // The truth is answered, unless memory runs out.
    ensures if_text { (out : List ℕ) → ExpandsTo text.now tokens.now out → length out ≤ most → IsOkAnd result (λ o. o.items ≡ out) ⊎ IsErrOf result Memory }
    ensures if_broken { (n : ℕ) → IsBroken tokens.now n → IsErrOf result (Broken n) ⊎ IsErrOf result Memory }
    ensures if_twice { (name : List ℕ) → IsTwice text.now tokens.now name → IsErrOf result (Twice name) ⊎ IsErrOf result Memory }
    ensures if_big { IsTooBig text.now tokens.now → IsErrOf result TooBig ⊎ IsErrOf result Memory }

    // The result is read as the tokens of its pieces.
    ensures read { IfOk result (λ out. (pieces : List Piece) → IsExpansion text.now tokens.now pieces → Reads out.items (tokens_from 0 pieces)) }
{
    written_out(alloc, text, tokens)
}

/// Returns the expanded text, or one reason why there is none. That no other answer is right follows from these clauses alone.
fn written_out(alloc: Global, text: &[u8], tokens: &[Token]) -> Result<Vec<u8>, SizeError>
    requires { Reads text.now tokens.now }
    ensures ok { IfOk result (λ out. ExpandsTo text.now tokens.now out.items × (length out.items ≤ most)) }
    ensures err { IfErr result (Refuses text.now tokens.now) }
{
    let cut = templates(alloc, tokens)?;
    let written = write_cut(alloc, text, tokens, cut.as_slice());
    drop(cut);
    written
}

/// Expands a text that is cut into these templates.
fn write_cut(
    alloc: Global,
    text: &[u8],
    tokens: &[Token],
    templates: &[Template],
) -> Result<Vec<u8>, SizeError>
    requires reads { Reads text.now tokens.now }
    requires whole { cutting.templates tokens.now ≡ Ok templates.now }
    ensures ok { IfOk result (λ out. ExpandsTo text.now tokens.now out.items × (length out.items ≤ most)) }
    ensures err { IfErr result (Refuses text.now tokens.now) }
{
    templates_stand(text, tokens, templates);
    let names = names_of(alloc, text, tokens, templates)?;
    let written = write_named(alloc, text, tokens, templates, &names);
    drop(names);
    written
}

/// Expands a text whose templates have these names, no two the same.
fn write_named(
    alloc: Global,
    text: &[u8],
    tokens: &[Token],
    templates: &[Template],
    names: &Names,
) -> Result<Vec<u8>, SizeError>
    requires reads { Reads text.now tokens.now }
    requires names { AreNames text.now tokens.now templates.now names.now }
    ensures ok { IfOk result (λ out. ExpandsTo text.now tokens.now out.items × (length out.items ≤ most)) }
    ensures err { IfErr result (Refuses text.now tokens.now) }
{
    templates_stand(text, tokens, templates);
    let parts = parts_of(alloc, text, tokens, names, templates)?;
    let written = write_parted(
        alloc,
        text,
        tokens,
        templates,
        names,
        parts.outside.as_slice(),
        parts.bodies.as_slice(),
    );
    drop(parts);
    written
}

/// Expands a text that has these steps outside its templates and in their bodies.
fn write_parted(
    alloc: Global,
    text: &[u8],
    tokens: &[Token],
    templates: &[Template],
    names: &Names,
    outside: &[Step],
    bodies: &[Items<Step>],
) -> Result<Vec<u8>, SizeError>
    requires reads { Reads text.now tokens.now }
    requires names { AreNames text.now tokens.now templates.now names.now }
    requires outside { outside.now ≡ spec.outside_from text.now names.now tokens.now 0 templates.now }
    requires bodies { bodies.now ≡ map (spec.body_steps text.now names.now tokens.now) templates.now }
    ensures ok { IfOk result (λ out. ExpandsTo text.now tokens.now out.items × (length out.items ≤ most)) }
    ensures err { IfErr result (Refuses text.now tokens.now) }
{
    templates_stand(text, tokens, templates);
    parts_stand(text, tokens, templates, outside, bodies);
    let underscores = underscores_in(text, tokens);
    let found = found_in(alloc, text, outside, bodies, underscores)?;
    let written = write_whole(
        alloc,
        text,
        tokens,
        names,
        templates,
        bodies,
        found.as_slice(),
        underscores,
    );
    drop(found);
    within_most(written?)
}

/// Refuses a text that is too long.
fn within_most(out: Vec<u8>) -> Result<Vec<u8>, SizeError>
    ensures fits { IfOk result (λ o. (o.items ≡ out.items) × (length o.items ≤ most)) }
    ensures err { IfErr result (λ e. (e ≡ TooBig) × (most < length out.items)) }
{
    if out.len() > MOST {
        drop(out);
        return Err(SizeError::TooBig);
    }
    Ok(out)
}

/// Finds the used instances, in a table that is seeded by the text. `TooBig` if they and the text outside the templates have more bytes than
/// an expanded text may have.
fn found_in(
    alloc: Global,
    text: &[u8],
    outside: &[Step],
    bodies: &[Items<Step>],
    underscores: usize,
) -> Result<Vec<Instance>, SizeError>
    requires outside { AreWithin (length bodies.now) outside.now }
    requires bodies { All (AreWithin (length bodies.now)) bodies.now }
    requires steps { All (All (λ s. s.from ≤ s.token.span.end)) bodies.now }
    requires outer { All (λ s. s.from ≤ s.token.span.end) outside.now }
    ensures found { IfOk result (λ f. AreUsed outside.now bodies.now f.items) }
    ensures within { IfOk result (λ f. All (λ i. i.template < length bodies.now) f.items) }
    ensures err { IfErr result (NeedsMore most (steps_len underscores 0 outside.now) underscores outside.now bodies.now) }
{
    match room_behind(underscores, 0, outside, MOST) {
        None => Err(SizeError::TooBig),
        Some(room) => find_used(alloc, Seeded::by(text), outside, bodies, underscores, room),
    }
}
