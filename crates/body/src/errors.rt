//! What a failed test is reported as, from the arena's tests up to the whole module's.
ghost use Rattle.std.specs.Prelude.{◌≡◌};
ghost use Rattle.rules.specs.declared.faults.Rejection.TheVariants.{Faulty};
ghost use Rattle.body.specs.declared.errors.InvalidHandleError.TheVariants as invalid;
ghost use Rattle.body.specs.declared.errors.ValidationError.TheVariants as validation;
ghost use Rattle.body.specs.Errors.{bad_handle, forward_dependency, bad_range, invalid_handle, whole};

use rules::faults::{Fault, FaultKind, Rejection, Rule};

/// A handle that names no item of its table.
#[derive(Clone, Copy, Debug, PartialEq, Eq)]
pub struct BadHandle {
    pub kind: FaultKind,
    pub index: usize,
    /// The place of the record under test.
    pub place: usize,
}

/// An item that depends on one that is not earlier.
#[derive(Clone, Copy, Debug, PartialEq, Eq)]
pub struct FwdDepError {
    pub kind: FaultKind,
    pub subject: usize,
    pub depends_on: usize,
    pub place: usize,
}

/// A range of expressions that is neither empty nor inside.
#[derive(Clone, Copy, Debug, PartialEq, Eq)]
pub struct BadRangeError {
    pub start: u32,
    pub end: u32,
    pub place: usize,
}

/// A handle or a range that fails its test.
#[derive(Clone, Copy, Debug, PartialEq, Eq)]
pub enum InvalidHandleError {
    BadHandle(BadHandle),
    ForwardDependency(FwdDepError),
    BadRange(BadRangeError),
}

/// Why a module is refused.
#[derive(Clone, Copy, Debug, PartialEq, Eq)]
pub enum ValidationError {
    InvalidHandle(InvalidHandleError),
}

impl From<BadHandle> for InvalidHandleError {
    ghost from_gives = { λ e r. r ≡ invalid.BadHandle e };

    fn from(source: BadHandle) -> InvalidHandleError {
        InvalidHandleError::BadHandle(source)
    }
}

impl From<FwdDepError> for InvalidHandleError {
    ghost from_gives = { λ e r. r ≡ invalid.ForwardDependency e };

    fn from(source: FwdDepError) -> InvalidHandleError {
        InvalidHandleError::ForwardDependency(source)
    }
}

impl From<BadRangeError> for InvalidHandleError {
    ghost from_gives = { λ e r. r ≡ invalid.BadRange e };

    fn from(source: BadRangeError) -> InvalidHandleError {
        InvalidHandleError::BadRange(source)
    }
}

impl From<InvalidHandleError> for ValidationError {
    ghost from_gives = { λ e r. r ≡ validation.InvalidHandle e };

    fn from(source: InvalidHandleError) -> ValidationError {
        ValidationError::InvalidHandle(source)
    }
}

impl From<BadHandle> for ValidationError {
    ghost from_gives = { λ e r. r ≡ validation.InvalidHandle (invalid.BadHandle e) };

    fn from(source: BadHandle) -> ValidationError {
        ValidationError::InvalidHandle(source.into())
    }
}

impl From<FwdDepError> for ValidationError {
    ghost from_gives = { λ e r. r ≡ validation.InvalidHandle (invalid.ForwardDependency e) };

    fn from(source: FwdDepError) -> ValidationError {
        ValidationError::InvalidHandle(source.into())
    }
}

impl ValidationError {
    /// The rule that is broken, what the numbers count, the two numbers and the place.
    pub fn fault(self) -> Fault
        ensures { result ≡ whole self }
    {
        let ValidationError::InvalidHandle(invalid) = self;
        match invalid {
            InvalidHandleError::BadHandle(source) => Fault {
                rule: Rule::Inside,
                kind: source.kind,
                first: source.index,
                second: 0,
                place: source.place,
            },
            InvalidHandleError::ForwardDependency(source) => Fault {
                rule: Rule::Earlier,
                kind: source.kind,
                first: source.subject,
                second: source.depends_on,
                place: source.place,
            },
            InvalidHandleError::BadRange(source) => Fault {
                rule: Rule::Range,
                kind: FaultKind::Expression,
                first: source.start as usize,
                second: source.end as usize,
                place: source.place,
            },
        }
    }
}

impl From<ValidationError> for Rejection {
    ghost from_gives = { λ e r. r ≡ Faulty (whole e) };

    fn from(error: ValidationError) -> Rejection {
        Rejection::Faulty(error.fault())
    }
}
