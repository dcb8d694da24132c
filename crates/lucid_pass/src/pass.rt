// The trait of a pass: its name, its count and its meaning, with the law that every pass keeps.
ghost use Rattle.std.specs.Prelude.{◌≡◌, ◌-◌, ℕ, List, length, IfOk, OnOk, OnErr};
ghost use Rattle.lucid_base.specs.Saturating.{saturating_sum};
ghost use Rattle.lucid_pass_spec.specs.Replace.{Rewrite};

use crate::Name;
use lucid_base::Memory;
use lucid_code::Code;
use std::alloc::Global;

/// A pass. `called` is its name, `count` the number of operations it has removed, and `gives` its result for code, with the proof that
/// this may replace all valid code. A law below the methods could not be named for a box, so it is part of the meaning.
pub trait Pass: Drop {
    ghost called: { Self → List ℕ };

    ghost count: { Self → ℕ };

    ghost gives: { Self → Rewrite };

    /// The name.
    fn name(&self) -> Name
        ensures { result ≡ called self.now };

    /// Returns the number of operations removed so far. It stops at the last u64.
    fn removed(&self) -> u64
        ensures { result ≡ count self.now };

    /// Applies the pass to the code, in memory of its own. After Memory the count is as before; name and meaning stay in any case.
    fn run(&mut self, alloc: Global, code: &Code) -> Result<Code, Memory>
        ensures gives { IfOk result (λ new. new ≡ (gives self.old).makes code.now) }
        ensures count { OnOk result (count self.new ≡ saturating_sum (count self.old) (length code.now.ops - length ((gives self.old).makes code.now).ops)) }
        ensures unchanged { OnErr result (count self.new ≡ count self.old) }
        ensures name { called self.new ≡ called self.old }
        ensures same { gives self.new ≡ gives self.old };
}
