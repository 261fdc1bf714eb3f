//! Walks of the tables of small modules, and of a long one.

use crate::walking::{DraftTable, walk_sealed};
use arena::Draft;
use arena::slot::Slot;
use seal::seal::seal;
use std::test::Fail;
use walk::depth::Depth;
use walk::reading::Reading;
use walk::steady::Steady;

const LITERAL: [u8; 5] = [64, 0, 0, 0, 0];

const END_FUNCTION: [u8; 1] = [31];

/// Every table: two filter nodes; a scalar, a pointer to it and a struct of both; two literals and their product; a
/// function, one that takes its result and calls it, and an entry point.
#[rattlefmt::skip]
const EVERY_TABLE: [&[u8]; 21] = [
    &[8, 0, 0, 0, 0, 255, 255, 255, 255],
    &[8, 0, 0, 0, 0, 0, 0, 0, 0],
    &[16, 0, 0, 0, 0, 0, 0, 0, 0],
    &[21, 0, 0, 0, 0, 0, 0, 0, 0, 0, 0, 0, 0],
    &[1, 0, 0, 0, 0, 1, 0, 0, 0, 0, 0, 0, 0, 0, 0, 0, 0],
    &[1, 0, 0, 0, 0, 0, 0, 0, 0, 0, 0, 0, 0, 8, 0, 0, 0],
    &[24, 0, 0, 0, 0, 12, 0, 0, 0],
    &LITERAL,
    &LITERAL,
    &[81, 0, 0, 0, 0, 0, 0, 0, 0, 1, 0, 0, 0],
    &[11, 0, 0, 0, 0, 255, 255, 255, 255],
    &LITERAL,
    &END_FUNCTION,
    &[11, 0, 0, 0, 0, 255, 255, 255, 255],
    &[87, 0, 0, 0, 0],
    &[80, 0, 0, 0, 0, 0, 0, 0, 0],
    &[144, 0, 0, 0, 0, 0, 0, 0, 0],
    &END_FUNCTION,
    &ENTRY_POINT,
    &LITERAL,
    &END_FUNCTION,
];

/// An entry point that names nothing.
#[rattlefmt::skip]
const ENTRY_POINT: [u8; 74] = [
    12, 255, 255, 255, 255, 255, 255, 255, 255, 255, 255, 255, 255, 255, 255, 255, 255, 255, 255, 255,
    255, 255, 255, 255, 255, 255, 255, 255, 255, 255, 255, 255, 255, 0, 255, 255, 255, 255, 255, 255,
    255, 255, 255, 255, 255, 255, 255, 255, 255, 255, 255, 255, 255, 255, 255, 255, 255, 255, 255, 255,
    255, 255, 255, 255, 255, 255, 255, 255, 255, 255, 255, 255, 255, 255,
];

/// Memory to lend.
fn lent<T: Copy, const N: usize>(blank: T) -> [T; N] {
    [blank; N]
}

/// What a walk of a table of these records answers: items and takes, or the number of the refusal.
fn walked<R: Reading>(
    records: &[&[u8]],
    table: DraftTable,
    reading: &R,
    values: &mut [R::Value],
) -> Result<Result<(usize, usize), u8>, Fail> {
    let mut bytes: [u8; 512] = lent(0);
    let mut slots: [Slot; 32] = lent(Slot::EMPTY);
    let mut draft = Draft::new();
    for record in records {
        draft.put(&mut bytes, &mut slots, record)?;
    }
    let sealed = seal(&draft, &bytes, &slots)?;
    match walk_sealed(sealed, table, reading, values) {
        Ok(tally) => Ok(Ok((tally.items, tally.takes))),
        Err(refusal) => Ok(Err(refusal.number())),
    }
}

// The values of every table by both readings.
#[test]
fn every_table(rt: HostRuntime) -> Result<(), Fail> {
    let tables = [
        (DraftTable::Types, (3, 3), [1, 2, 3], [false, false, false]),
        (DraftTable::Filters, (2, 1), [1, 2, 9], [false, false, true]),
        (
            DraftTable::Functions,
            (2, 2),
            [1, 2, 9],
            [false, false, true],
        ),
        (
            DraftTable::GlobalExpressions,
            (3, 2),
            [1, 1, 2],
            [true, true, true],
        ),
        (
            DraftTable::Function(0),
            (1, 0),
            [1, 9, 9],
            [true, true, true],
        ),
        (
            DraftTable::Function(1),
            (2, 1),
            [1, 2, 9],
            [false, false, true],
        ),
        (
            DraftTable::EntryPoint(0),
            (1, 0),
            [1, 9, 9],
            [true, true, true],
        ),
    ];
    for (table, tally, depths, steady) in tables {
        let mut values = [9; 3];
        assert_eq!(rt;
            walked(&EVERY_TABLE, table, &Depth, &mut values)?,
            Ok(tally)
        );
        assert_eq!(rt; values, depths);
        let mut values = [true; 3];
        assert_eq!(rt;
            walked(&EVERY_TABLE, table, &Steady, &mut values)?,
            Ok(tally)
        );
        assert_eq!(rt; values, steady);
    }
    Ok(())
}

// No item and one item, in exactly enough places, in one more and in one fewer.
#[test]
fn places(rt: HostRuntime) -> Result<(), Fail> {
    let globals = DraftTable::GlobalExpressions;
    assert_eq!(rt; walked(&[], globals, &Depth, &mut [])?, Ok((0, 0)));
    let mut one = [9];
    assert_eq!(rt; walked(&[], globals, &Depth, &mut one)?, Ok((0, 0)));
    assert_eq!(rt; one, [9]);
    assert_eq!(rt; walked(&[&LITERAL], globals, &Depth, &mut [])?, Err(15));
    assert_eq!(rt; walked(&[&LITERAL], globals, &Depth, &mut one)?, Ok((1, 0)));
    assert_eq!(rt; one, [1]);
    let mut two = [9; 2];
    assert_eq!(rt; walked(&EVERY_TABLE, globals, &Depth, &mut two)?, Err(15));
    assert_eq!(rt; two, [9, 9]);
    Ok(())
}

// There is no such function or entry point, however many places there are.
#[test]
fn no_such_body(rt: HostRuntime) -> Result<(), Fail> {
    let mut values = [9];
    for table in [
        DraftTable::Function(2),
        DraftTable::EntryPoint(1),
        DraftTable::Function(u32::MAX),
    ] {
        assert_eq!(rt; walked(&EVERY_TABLE, table, &Depth, &mut values)?, Err(14));
        assert_eq!(rt; walked(&EVERY_TABLE, table, &Depth, &mut [])?, Err(14));
    }
    assert_eq!(rt; values, [9]);
    Ok(())
}

// 10,000 expressions, each of which takes the one before.
#[test]
fn chain(rt: HostRuntime) -> Result<(), Fail> {
    let mut bytes: [u8; 90_000] = lent(0);
    let mut slots: [Slot; 10_000] = lent(Slot::EMPTY);
    let mut draft = Draft::new();
    draft.put(&mut bytes, &mut slots, &LITERAL)?;
    for before in 0..9_999u32 {
        let [a, b, c, d] = before.to_le_bytes();
        draft.put(&mut bytes, &mut slots, &[80, 0, 0, 0, 0, a, b, c, d])?;
    }
    let mut depths: [u32; 10_000] = lent(0);
    let sealed = seal(&draft, &bytes, &slots)?;
    let walked = walk_sealed(sealed, DraftTable::GlobalExpressions, &Depth, &mut depths);
    assert!(rt; matches!(walked, Ok(tally) if tally.items == 10_000 && tally.takes == 9_999));
    for (place, depth) in depths.iter().enumerate() {
        assert_eq!(rt; *depth as usize, place + 1);
    }
    Ok(())
}
