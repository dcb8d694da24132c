// Whether numbers fit widths.
ghost use Rattle.std.specs.Prelude.{◌≡◌, ◌^◌, nat_lt};
ghost use Rattle.lucid_core.specs.Fits.{args_fit as arguments_fit};

use lucid_base::Width;

/// Returns whether there are as many arguments as parameters, each within its width.
pub fn args_fit(params: &[Width], args: &[u64]) -> bool
    ensures { result ≡ arguments_fit params.now args.now }
{
    if params.len() != args.len() {
        return false;
    }
    for i in 0..params.len() {
        if !number_fits(params[i], args[i]) {
            return false;
        }
    }
    true
}

/// Returns whether the number has at most this many bits.
pub fn number_fits(width: Width, n: u64) -> bool
    ensures { result ≡ nat_lt n (2 ^ width) }
{
    let bits = width.get();
    bits == 64 || n < 1 << bits
}
