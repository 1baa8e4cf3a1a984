//! The outcome of a session that ended early.

ghost use Rattle.std.specs.Prelude.{◌≡◌};
ghost use Rattle.dc_cli.specs.Sessions.{outcome_of_session};

use crate::outcome::Outcome;
use dc_live::LiveFault;

/// The outcome of a fault of a session.
pub fn outcome_of_session(fault: LiveFault) -> Outcome
    ensures { result ≡ outcome_of_session fault }
{
    match fault {
        LiveFault::Wire => Outcome::WireFault,
        LiveFault::Peer { peer, fault } => Outcome::Peer { peer, fault },
    }
}
