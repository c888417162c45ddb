// A network that was tested.
ghost use Rattle.std.specs.Prelude.{◌≡◌, IfOk};
ghost use Rattle.network.specs.Refusals.{refusal_of};
ghost use Rattle.network.specs.Record.{fault_of};

use crate::faults::fault;
use crate::{Network, Refusal};

// A network in which the record test finds no fault. What is asked of one takes it in place of any record.
#[derive(Clone, Copy)]
pub struct Accepted {
    pub network: Network,
    ghost accepted: { fault_of network ≡ 0 },
}

// Tests a network.
pub fn accept(network: Network) -> Result<Accepted, Refusal>
    ensures refusal { refusal_of result ≡ fault_of network }
    ensures same { IfOk result (λ a. a.network ≡ network) }
{
    fault(network)?;
    Ok(Accepted { network })
}
