//! Why a module that passes the check is not sealed.
ghost use Rattle.std.specs.Prelude.{◌≡◌};
ghost use Rattle.rules.specs.declared.faults.Rejection.TheVariants.{Faulty};
ghost use Rattle.seal.specs.declared.breach.Breach.TheVariants as breach;
ghost use Rattle.seal.specs.Breach.{breached};

use body::errors::{BadHandle, FwdDepError};
use rules::faults::{Fault, FaultKind, Rejection, Rule};

/// A global expression of a kind that stands in bodies only.
#[derive(Clone, Copy)]
pub struct Misplaced {
    pub number: usize,
    pub place: usize,
}

/// A test that only sealing makes, and that fails.
#[derive(Clone, Copy)]
pub enum Breach {
    Misplaced(Misplaced),
    Outside(BadHandle),
    Later(FwdDepError),
}

impl From<BadHandle> for Breach {
    ghost from_gives = { λ e r. r ≡ breach.Outside e };

    fn from(source: BadHandle) -> Breach {
        Breach::Outside(source)
    }
}

impl From<FwdDepError> for Breach {
    ghost from_gives = { λ e r. r ≡ breach.Later e };

    fn from(source: FwdDepError) -> Breach {
        Breach::Later(source)
    }
}

impl Breach {
    /// The rule that is broken, what the numbers count, the two numbers and the place.
    fn fault(self) -> Fault
        ensures { result ≡ breached self }
    {
        match self {
            Breach::Misplaced(source) => Fault {
                rule: Rule::Placed,
                kind: FaultKind::Expression,
                first: source.number,
                second: 0,
                place: source.place,
            },
            Breach::Outside(source) => Fault {
                rule: Rule::SealedInside,
                kind: source.kind,
                first: source.index,
                second: 0,
                place: source.place,
            },
            Breach::Later(source) => Fault {
                rule: Rule::SealedEarlier,
                kind: source.kind,
                first: source.subject,
                second: source.depends_on,
                place: source.place,
            },
        }
    }
}

impl From<Breach> for Rejection {
    ghost from_gives = { λ e r. r ≡ Faulty (breached e) };

    fn from(breach: Breach) -> Rejection {
        Rejection::Faulty(breach.fault())
    }
}
