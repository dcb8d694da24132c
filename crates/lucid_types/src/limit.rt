// The limit that the newest declaration passes.
ghost use Rattle.std.specs.Prelude.{◌≡◌, ◌-◌, length, slice_get};
ghost use Rattle.std.specs.Option.{option_copied};
ghost use Rattle.lucid_types_declarations.specs.Known.{made_of};
ghost use Rattle.lucid_types.specs.Answers.{Judges};

use crate::law;
use lucid_base::Memory;
use lucid_parse_tree::DeclKind;
use lucid_types_declarations::Known;
use lucid_types_limits::Limits;
use lucid_types_spec::What;

/// Returns the limit that the newest declaration exceeds, if any.
pub fn passed(limits: &mut Limits, known: &Known, x: &DeclKind) -> Result<Option<What>, Memory>
    ensures { Judges result x.now (made_of known.now) limits.old limits.new }
{
    law::declarations_are_computed();
    law::only_the_new_counts();
    match x {
        DeclKind::Const(_, _, _) => Ok(None),
        DeclKind::Global {
            short: _,
            width: _,
            name: _,
            size: _,
        } => Ok(Limits::array(known.arrays.as_slice().len())),
        DeclKind::Memop {
            name: _,
            first: _,
            second: _,
            body: _,
        } => Ok(None),
        DeclKind::Event { name: _, params: _ } => match newest(&known.events) {
            Some(event) => Ok(Limits::event(event)),
            None => Ok(None),
        },
        DeclKind::Handle {
            name: _,
            params: _,
            body,
        } => match newest(&known.handlers) {
            Some(handler) => Ok(limits.handler(handler, body.as_slice())),
            None => Ok(None),
        },
        DeclKind::Fun {
            answer: _,
            name: _,
            params: _,
            body,
        } => match newest(&known.funs) {
            Some(fun) => limits.fun(fun, body.as_slice()),
            None => Ok(None),
        },
        DeclKind::Group(_, _) => Ok(None),
    }
}

fn newest<T>(items: &Vec<T>) -> Option<&T>
    ensures { option_copied result ≡ slice_get items.now.items (length items.now.items - 1) }
{
    items.get(items.len().saturating_sub(1))
}
