//! The unit tests of naga's handle check, by meaning.

use crate::check::check;
use arena::Draft;
use arena::slot::Slot;
use draft::refusal::Refusal;
use rules::faults::{Fault, FaultKind, Rejection, Rule};
use std::test::Fail;

/// A scalar type.
const SCALAR: [u8; 9] = [16, 0, 0, 0, 0, 0, 0, 0, 0];

/// A constant of type 0, with expression 0 as its init.
const CONSTANT: [u8; 13] = [4, 0, 0, 0, 0, 0, 0, 0, 0, 0, 0, 0, 0];

/// The expression that names constant 0.
const OF_CONSTANT: [u8; 5] = [65, 0, 0, 0, 0];

/// The zero value of a type.
fn zero_value(ty: u8) -> [u8; 5] {
    [67, ty, 0, 0, 0]
}

/// An override of type 0, with an init.
fn override_with(init: u8) -> [u8; 17] {
    [3, 0, 0, 0, 0, 0, 0, 0, 0, 0, 0, 0, 0, init, 0, 0, 0]
}

/// An array of type 0, whose size is an override, by the two low bytes of its number.
fn array_of(low: u8, high: u8) -> [u8; 18] {
    [23, 0, 0, 0, 0, 0, 0, 0, 0, 1, low, high, 0, 0, 4, 0, 0, 0]
}

/// What the check answers to a draft of these records.
fn answer(records: &[&[u8]]) -> Result<Result<(), Rejection>, Refusal> {
    let mut bytes = [0; 64];
    let mut slots = [Slot::EMPTY; 8];
    let mut draft = Draft::new();
    for record in records {
        draft.put(&mut bytes, &mut slots, record)?;
    }
    Ok(check(draft.view(&bytes, &slots)))
}

/// An item whose dependency is not earlier.
fn not_earlier(kind: FaultKind, first: usize, second: usize, place: usize) -> Rejection {
    Rejection::Faulty(Fault {
        rule: Rule::Earlier,
        kind,
        first,
        second,
        place,
    })
}

// A constant whose init is the expression that names it.
#[test]
fn constant_deps(rt: HostRuntime) -> Result<(), Fail> {
    assert_eq!(rt;
        answer(&[&SCALAR, &CONSTANT, &OF_CONSTANT])?,
        Err(not_earlier(FaultKind::Expression, 0, 0, 2))
    );
    Ok(())
}

// The size of an array is an override; then the override's init is of the array's type.
#[test]
fn array_size_deps(rt: HostRuntime) -> Result<(), Fail> {
    assert_eq!(rt;
        answer(&[&SCALAR, &zero_value(0), &override_with(0), &array_of(0, 0)])?,
        Ok(())
    );
    assert_eq!(rt;
        answer(&[&SCALAR, &zero_value(1), &override_with(0), &array_of(0, 0)])?,
        Err(not_earlier(FaultKind::Type, 1, 1, 3))
    );
    Ok(())
}

// An array whose size is override 1000, where there is none.
#[test]
fn array_size_override(rt: HostRuntime) -> Result<(), Fail> {
    let fault = Fault {
        rule: Rule::Inside,
        kind: FaultKind::Override,
        first: 1000,
        second: 0,
        place: 1,
    };
    assert_eq!(rt;
        answer(&[&SCALAR, &array_of(232, 3)])?,
        Err(Rejection::Faulty(fault))
    );
    Ok(())
}

// The size of an array is an override, and a second expression is of the array's type; then that one is the override's init.
#[test]
fn override_init_deps(rt: HostRuntime) -> Result<(), Fail> {
    assert_eq!(rt;
        answer(&[
            &SCALAR,
            &zero_value(0),
            &override_with(0),
            &array_of(0, 0),
            &zero_value(1)
        ])?,
        Ok(())
    );
    assert_eq!(rt;
        answer(&[
            &SCALAR,
            &zero_value(0),
            &override_with(1),
            &array_of(0, 0),
            &zero_value(1)
        ])?,
        Err(not_earlier(FaultKind::Type, 1, 1, 3))
    );
    Ok(())
}
