// The core of the typed declarations.
ghost use Rattle.std.specs.Prelude.{◌≡◌};
ghost use Rattle.lucid_core.specs.Valid.{IsValid};
ghost use Rattle.lucid_types_spec.specs.Declaration.{parts_of};
ghost use Rattle.lucid_types_declarations.specs.Known.{made_of};

use lucid_core::Core;
use lucid_types_declarations::Known;

/// Returns the core of the known declarations.
pub fn core_of(known: Known) -> Core
    requires { IsValid (parts_of (made_of known)) }
    ensures { result ≡ parts_of (made_of known) }
{
    let Known {
        scope: _scope,
        numbering,
        arrays,
        memops,
        events,
        funs,
        handlers,
    } = known;
    Core::new(
        arrays,
        memops,
        events,
        funs,
        handlers,
        numbering.forms.into_vec(),
    )
}
