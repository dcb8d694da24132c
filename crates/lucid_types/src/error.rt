// Why a tree has no core.
use lucid_base::Memory as WantOfMemory;
use lucid_types_spec::What;

/// Why a tree has no core. Declarations are counted from 1, and so are lines; a declaration's line is that of its first token.
#[derive(Clone, Copy, Debug, PartialEq, Eq)]
pub enum TypeError {
    /// This declaration is the first that is refused, and no rule gives it anything.
    NoRule { decl: u32, line: u32 },
    /// This declaration is the first that is refused: it has a rule, and passes this limit first.
    Limit { what: What, decl: u32, line: u32 },
    /// Memory ran out.
    Memory,
}

impl From<WantOfMemory> for TypeError {
    ghost use Rattle.std.specs.Prelude.{◌≡◌};
    ghost use Rattle.lucid_types.specs.declared.error.TypeError.TheVariants as errors;

    ghost from_gives = { λ _ e. e ≡ errors.Memory };

    fn from(_memory: WantOfMemory) -> TypeError {
        TypeError::Memory
    }
}
