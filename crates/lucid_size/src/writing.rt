// Writes steps and instances.
ghost use Rattle.std.specs.Prelude.{◌≡◌, ◌++◌, ◌∷◌, [], All, OnOk, codes, decimal};
ghost use Rattle.std.specs.List.{repeat};
ghost use Rattle.lucid_lex.specs.Reading.{joined};
ghost use Rattle.lucid_size.specs.Bytes.{form_bytes};
ghost use Rattle.lucid_size.specs.Expansion.{instances};
ghost use Rattle.lucid_size.specs.Pieces.{pieces_of, step_pieces};
ghost use Rattle.lucid_size.specs.Places.{InText};
ghost use Rattle.lucid_size.specs.Suffix.{suffix};

use crate::step::{Form, Step};
use itoa::Buffer;
use lucid_base::Memory;

/// Writes the steps in the instance of a width.
pub(crate) fn write_steps(
    out: &mut Vec<u8>,
    text: &[u8],
    underscores: usize,
    width: u64,
    steps: &[Step],
) -> Result<(), Memory>
    requires { All (InText text.now) steps.now }
    ensures { OnOk result (out.new.items ≡ out.old.items ++ joined (pieces_of text.now underscores width steps.now) []) }
{
    for step in steps {
        write_step(out, text, underscores, width, *step)?;
    }
    Ok(())
}

/// Writes a step in the instance of a width, with the bytes before it.
fn write_step(
    out: &mut Vec<u8>,
    text: &[u8],
    underscores: usize,
    width: u64,
    step: Step,
) -> Result<(), Memory>
    requires { InText text.now step }
    ensures { OnOk result (out.new.items ≡ out.old.items ++ joined (step_pieces text.now underscores width step) []) }
{
    put(out, &text[step.from..step.token.span.end])?;
    write_form(out, underscores, width, step.form)
}

/// Writes the form of a token.
fn write_form(out: &mut Vec<u8>, underscores: usize, width: u64, form: Form) -> Result<(), Memory>
    ensures { OnOk result (out.new.items ≡ out.old.items ++ form_bytes underscores width form) }
{
    match form {
        Form::Kept => Ok(()),
        Form::Width => put_width(out, width),
        Form::Named => put_suffix(out, underscores, width),
        Form::Use(_, size) => put_use(out, underscores, size.unwrap_or(width)),
    }
}

/// The width and `>>`.
fn put_width(out: &mut Vec<u8>, width: u64) -> Result<(), Memory>
    ensures { OnOk result (out.new.items ≡ out.old.items ++ (decimal width ++ codes ">>")) }
{
    put_decimal(out, width)?;
    put(out, b">>")
}

/// The suffix and `(`.
fn put_use(out: &mut Vec<u8>, underscores: usize, width: u64) -> Result<(), Memory>
    ensures { OnOk result (out.new.items ≡ out.old.items ++ (suffix underscores width ++ codes "(")) }
{
    put_suffix(out, underscores, width)?;
    put(out, b"(")
}

/// Writes the part of an instance's name after that of its template.
fn put_suffix(out: &mut Vec<u8>, underscores: usize, width: u64) -> Result<(), Memory>
    ensures { OnOk result (out.new.items ≡ out.old.items ++ suffix underscores width) }
{
    put_underscores(out, underscores)?;
    put_decimal(out, width)
}

/// Writes this many underscores.
fn put_underscores(out: &mut Vec<u8>, underscores: usize) -> Result<(), Memory>
    ensures { OnOk result (out.new.items ≡ out.old.items ++ repeat underscores (95 ∷ [])) }
{
    for _i in 0..underscores {
        out.push(b'_')?;
    }
    Ok(())
}

/// The number in decimal.
fn put_decimal(out: &mut Vec<u8>, n: u64) -> Result<(), Memory>
    ensures { OnOk result (out.new.items ≡ out.old.items ++ decimal n) }
{
    let mut buffer = Buffer::new();
    put(out, buffer.format(n).as_bytes())
}

/// Writes these bytes.
pub(crate) fn put(out: &mut Vec<u8>, bytes: &[u8]) -> Result<(), Memory>
    ensures { OnOk result (out.new.items ≡ out.old.items ++ bytes.now) }
{
    out.extend_from_slice(bytes)?;
    Ok(())
}

/// The instances of a template, joined by one line feed; if there is none, a line feed.
pub(crate) fn write_instances(
    out: &mut Vec<u8>,
    text: &[u8],
    underscores: usize,
    body: &[Step],
    widths: &[u64],
) -> Result<(), Memory>
    requires { All (InText text.now) body.now }
    ensures { OnOk result (out.new.items ≡ out.old.items ++ joined (instances text.now underscores body.now widths.now) []) }
{
    if widths.len() == 0 {
        return put(out, b"\n");
    }
    write_instance(out, text, underscores, body, b"fun ", widths[0])?;
    for at in 1..widths.len() {
        write_instance(out, text, underscores, body, b"\nfun ", widths[at])?;
    }
    Ok(())
}

/// Writes the body in the instance of a width, behind these bytes.
fn write_instance(
    out: &mut Vec<u8>,
    text: &[u8],
    underscores: usize,
    body: &[Step],
    begin: &[u8],
    width: u64,
) -> Result<(), Memory>
    requires { All (InText text.now) body.now }
    ensures { OnOk result (out.new.items ≡ out.old.items ++ (begin.now ++ joined (pieces_of text.now underscores width body.now) [])) }
{
    put(out, begin)?;
    write_steps(out, text, underscores, width, body)
}
