//! Each fault that only sealing gives, and drafts that are sealed and let go.

use crate::seal::seal;
use arena::Draft;
use arena::slot::Slot;
use draft::refusal::Refusal;
use rules::faults::{Fault, FaultKind, Rejection, Rule};
use std::test::Fail;

/// A scalar type.
const SCALAR: [u8; 9] = [16, 0, 0, 0, 0, 0, 0, 0, 0];

/// A function without a leaf.
const FUNCTION: [u8; 9] = [11, 0, 0, 0, 0, 255, 255, 255, 255];

const END_FUNCTION: [u8; 1] = [31];

/// What sealing answers to a draft of these records.
fn answer(records: &[&[u8]]) -> Result<Result<(), Rejection>, Refusal> {
    let mut bytes = [0; 128];
    let mut slots = [Slot::EMPTY; 8];
    let mut draft = Draft::new();
    for record in records {
        draft.put(&mut bytes, &mut slots, record)?;
    }
    match seal(&draft, &bytes, &slots) {
        Ok(_) => Ok(Ok(())),
        Err(rejection) => Ok(Err(rejection)),
    }
}

/// A fault by its numbers.
fn fault(rule: Rule, kind: FaultKind, first: usize, second: usize, place: usize) -> Rejection {
    Rejection::Faulty(Fault {
        rule,
        kind,
        first,
        second,
        place,
    })
}

// A local variable and the result of a call among the global expressions.
#[test]
fn placed(rt: HostRuntime) -> Result<(), Fail> {
    assert_eq!(rt;
        answer(&[&[75, 0, 0, 0, 0]])?,
        Err(fault(Rule::Placed, FaultKind::Expression, 0, 0, 0))
    );
    assert_eq!(rt;
        answer(&[
            &FUNCTION,
            &END_FUNCTION,
            &[64, 0, 0, 0, 0],
            &[87, 0, 0, 0, 0]
        ])?,
        Err(fault(Rule::Placed, FaultKind::Expression, 1, 0, 3))
    );
    Ok(())
}

// A global product of itself, and one that is set down before its left operand.
#[test]
fn products(rt: HostRuntime) -> Result<(), Fail> {
    let product = [81, 0, 0, 0, 0, 0, 0, 0, 0, 0, 0, 0, 0];
    assert_eq!(rt;
        answer(&[&product])?,
        Err(fault(Rule::SealedEarlier, FaultKind::Expression, 0, 0, 0))
    );
    let before = [81, 0, 0, 0, 0, 1, 0, 0, 0, 2, 0, 0, 0];
    let literal = [64, 0, 0, 0, 0];
    assert_eq!(rt;
        answer(&[&before, &literal, &literal])?,
        Err(fault(Rule::SealedEarlier, FaultKind::Expression, 0, 1, 0))
    );
    let behind = [81, 0, 0, 0, 0, 0, 0, 0, 0, 1, 0, 0, 0];
    assert_eq!(rt; answer(&[&literal, &literal, &behind])?, Ok(()));
    Ok(())
}

// A global zero value of type 7.
#[test]
fn type_of_global(rt: HostRuntime) -> Result<(), Fail> {
    assert_eq!(rt;
        answer(&[&[67, 7, 0, 0, 0]])?,
        Err(fault(Rule::SealedInside, FaultKind::Type, 7, 0, 0))
    );
    Ok(())
}

// An array whose size waits for a constant of the array's type, and for one of an earlier type.
#[test]
fn size_by_constant(rt: HostRuntime) -> Result<(), Fail> {
    let size = [3, 0, 0, 0, 0, 0, 0, 0, 0, 0, 0, 0, 0, 1, 0, 0, 0];
    let array = [23, 0, 0, 0, 0, 0, 0, 0, 0, 1, 0, 0, 0, 0, 4, 0, 0, 0];
    let zero = [67, 0, 0, 0, 0];
    let named = [65, 0, 0, 0, 0];
    let of_array = [4, 0, 0, 0, 0, 1, 0, 0, 0, 0, 0, 0, 0];
    assert_eq!(rt;
        answer(&[&SCALAR, &size, &array, &zero, &of_array, &named])?,
        Err(fault(Rule::SealedEarlier, FaultKind::Type, 1, 1, 2))
    );
    let of_scalar = [4, 0, 0, 0, 0, 0, 0, 0, 0, 0, 0, 0, 0];
    assert_eq!(rt;
        answer(&[&SCALAR, &size, &array, &zero, &of_scalar, &named])?,
        Ok(())
    );
    Ok(())
}

// The number of an argument that a function does not have, and of one that it has.
#[test]
fn arguments(rt: HostRuntime) -> Result<(), Fail> {
    let first = [73, 0, 0, 0, 0];
    assert_eq!(rt;
        answer(&[&FUNCTION, &first, &END_FUNCTION])?,
        Err(fault(Rule::SealedInside, FaultKind::Argument, 0, 0, 1))
    );
    let argument = [13, 0, 0, 0, 0, 0, 0, 0, 0, 0, 0, 0, 0];
    assert_eq!(rt;
        answer(&[&SCALAR, &FUNCTION, &argument, &first, &END_FUNCTION])?,
        Ok(())
    );
    Ok(())
}

// A function that calls itself.
#[test]
fn calls(rt: HostRuntime) -> Result<(), Fail> {
    let call = [144, 0, 0, 0, 0, 255, 255, 255, 255];
    assert_eq!(rt;
        answer(&[&FUNCTION, &call, &END_FUNCTION])?,
        Err(fault(Rule::SealedEarlier, FaultKind::Function, 0, 0, 0))
    );
    assert_eq!(rt;
        answer(&[&FUNCTION, &END_FUNCTION, &FUNCTION, &call, &END_FUNCTION])?,
        Ok(())
    );
    Ok(())
}

// What an ImageAtomic compares with.
#[test]
fn compared(rt: HostRuntime) -> Result<(), Fail> {
    let atomic = [
        142, 0, 0, 0, 0, 0, 0, 0, 0, 255, 255, 255, 255, 7, 1, 0, 0, 0, 0, 0, 0, 0,
    ];
    let literal = [64, 0, 0, 0, 0];
    assert_eq!(rt;
        answer(&[&FUNCTION, &literal, &atomic, &END_FUNCTION])?,
        Err(fault(Rule::SealedInside, FaultKind::Expression, 1, 0, 2))
    );
    assert_eq!(rt;
        answer(&[&FUNCTION, &literal, &literal, &atomic, &END_FUNCTION])?,
        Ok(())
    );
    Ok(())
}

// The incoming payload of an entry point.
#[test]
fn payload(rt: HostRuntime) -> Result<(), Fail> {
    let mut entry = [0xff; 74];
    entry[0] = 12;
    entry[33] = 0;
    entry[70] = 0;
    entry[71] = 0;
    entry[72] = 0;
    entry[73] = 0;
    assert_eq!(rt;
        answer(&[&entry, &END_FUNCTION])?,
        Err(fault(Rule::SealedInside, FaultKind::GlobalVariable, 0, 0, 0))
    );
    Ok(())
}

// What the check refuses, sealing refuses with the same fault.
#[test]
fn as_the_check(rt: HostRuntime) -> Result<(), Fail> {
    assert_eq!(rt; answer(&[&FUNCTION])?, Err(Rejection::Unfinished));
    assert_eq!(rt;
        answer(&[&[4, 0, 0, 0, 0, 5, 0, 0, 0, 0, 0, 0, 0]])?,
        Err(fault(Rule::Inside, FaultKind::Type, 5, 0, 0))
    );
    Ok(())
}

// A draft that is sealed and let go takes records again.
#[test]
fn let_go(rt: HostRuntime) -> Result<(), Fail> {
    let mut bytes = [0; 32];
    let mut slots = [Slot::EMPTY; 2];
    let mut draft = Draft::new();
    assert!(rt; draft.put(&mut bytes, &mut slots, &SCALAR).is_ok());
    let sealed = seal(&draft, &bytes, &slots);
    assert!(rt; sealed.is_ok());
    drop(sealed);
    assert!(rt; draft.put(&mut bytes, &mut slots, &[67, 0, 0, 0, 0]).is_ok());
    assert_eq!(rt; draft.counts().kept, 2);
    Ok(())
}
