// Errors of a network, as refusals of a call.
ghost use Rattle.std.specs.Prelude.{◌≡◌};
ghost use Rattle.lucid_top_pipes.specs.Causes as causes;

use lucid_net::NetError;
use lucid_top_words::Refusal;

/// Why a network stops.
pub fn of_net(error: NetError) -> Refusal
    ensures { result ≡ causes.of_net error }
{
    match error {
        NetError::WriteFault => Refusal::WriteFault,
        NetError::Memory => Refusal::Memory,
    }
}
