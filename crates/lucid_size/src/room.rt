// The bytes that remain free after a text, computed before it is written.
ghost use Rattle.std.specs.Prelude.{◌≡◌, ◌≤◌, ◌-◌, All, SomeIff, decimal, length};
ghost use Rattle.lucid_size.specs.Bytes.{form_len, steps_len};

use crate::step::{Form, Step};
use itoa::Buffer;

/// Returns the bytes that remain free after these steps, if they fit.
pub(crate) fn room_behind(
    underscores: usize,
    width: u64,
    steps: &[Step],
    room: usize,
) -> Option<usize>
    requires { All (λ s. s.from ≤ s.token.span.end) steps.now }
    ensures { SomeIff result (steps_len underscores width steps.now ≤ room) (room - steps_len underscores width steps.now) }
{
    let mut room = room;
    for step in steps {
        room = room.checked_sub(step.token.span.end - step.from)?;
        room = room_behind_form(underscores, width, step.form, room)?;
    }
    Some(room)
}

/// Returns the bytes that remain free after the form of a token.
fn room_behind_form(underscores: usize, width: u64, form: Form, room: usize) -> Option<usize>
    ensures { SomeIff result (form_len underscores width form ≤ room) (room - form_len underscores width form) }
{
    match form {
        Form::Kept => Some(room),
        Form::Width => room.checked_sub(decimal_len(width) + 2),
        Form::Named => room
            .checked_sub(underscores)?
            .checked_sub(decimal_len(width)),
        Form::Use(_, size) => room
            .checked_sub(underscores)?
            .checked_sub(decimal_len(size.unwrap_or(width)) + 1),
    }
}

/// Returns how many digits the number has in decimal.
fn decimal_len(n: u64) -> usize
    ensures len { result ≡ length (decimal n) }
    ensures small { result ≤ 40 }
{
    let mut buffer = Buffer::new();
    buffer.format(n).len()
}
