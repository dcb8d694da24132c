// The limits of a large target, for generated programs.
ghost use Rattle.std.specs.Prelude.{◌≡◌, IfOk};
ghost use Rattle.lucid_gen.specs.Limits.{limits_text};

use lucid_base::Memory;
use std::alloc::Global;

/// The text of the limits (`limits_text`), or Memory.
pub fn make_limits(alloc: Global) -> Result<Vec<u8>, Memory>
    ensures { IfOk result (λ text. text.items ≡ limits_text) }
{
    let mut text = Vec::new(alloc);
    text.extend_from_slice(b"{\"stages\":32,\"tables\":64,\"rows\":1024,\"bits\":65536}\n")?;
    Ok(text)
}
