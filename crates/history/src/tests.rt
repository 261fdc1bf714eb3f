//! A list of calls of every kind, and what each answers.

use crate::calls::{Call, Denial, Outcome, Walk, WantedTable};
use crate::mixed::{Measure, Mixed};
use crate::replay::replay;
use arena::Draft;
use arena::slot::Slot;
use node::earlier::Late;
use rules::faults::Rejection;
use sealed_walk::walking::DraftTable;
use std::test::Fail;
use tables::tables::GlobalExpressionTable;

const LITERAL: [u8; 5] = [64, 0, 0, 0, 0];

/// A product of the first two expressions.
const PRODUCT: [u8; 13] = [81, 0, 0, 0, 0, 0, 0, 0, 0, 1, 0, 0, 0];

const FUNCTION: [u8; 9] = [11, 0, 0, 0, 0, 255, 255, 255, 255];

const END_FUNCTION: [u8; 1] = [31];

/// The global variable with number 0, as an expression: of no steady kind.
const GLOBAL_VARIABLE: [u8; 5] = [74, 0, 0, 0, 0];

type MixedCall<'a> = Call<'a, Mixed, GlobalExpressionTable<'a>>;

/// A walk of a table of the draft.
fn of_draft<'a>(reading: &'a Mixed, table: DraftTable, places: usize) -> MixedCall<'a> {
    Call::Walk(Walk {
        reading,
        table: WantedTable::Draft(table),
        places,
    })
}

/// A walk of the caller's table.
fn of_own<'a>(reading: &'a Mixed, table: GlobalExpressionTable<'a>) -> MixedCall<'a> {
    Call::Walk(Walk {
        reading,
        table: WantedTable::Own(table),
        places: 3,
    })
}

/// How many calls a list of these tests has at most.
const CALLS: usize = 16;

/// What the calls of a list answer on a new draft.
fn answers(calls: &[MixedCall<'_>], values: &mut [Measure]) -> [Option<Outcome>; CALLS] {
    let mut answers = [None; CALLS];
    let mut bytes = [255; 128];
    let mut slots = [Slot::EMPTY; 8];
    replay(calls, &mut answers, &mut bytes, &mut slots, values);
    answers
}

/// Items and takes of a walk that was made.
fn tally(answer: Option<Outcome>) -> Option<(usize, usize)> {
    match answer {
        Some(Outcome::Walked(Ok(tally))) => Some((tally.items, tally.takes)),
        _ => None,
    }
}

fn is_refused(answer: Option<Outcome>, number: u8) -> bool {
    matches!(answer, Some(Outcome::Walked(Err(Denial::Refused(refusal)))) if refusal.number() == number)
}

/// A list that puts two literals and their product, and walks them by both readings, with too few places, and
/// where there is nothing to walk.
fn products<'a>(depth: &'a Mixed, steady: &'a Mixed) -> [MixedCall<'a>; 11] {
    [
        of_draft(depth, DraftTable::GlobalExpressions, 0),
        Call::Put(&LITERAL),
        Call::Put(&LITERAL),
        Call::Check,
        Call::Put(&PRODUCT),
        Call::Seal,
        of_draft(depth, DraftTable::GlobalExpressions, 3),
        of_draft(steady, DraftTable::GlobalExpressions, 4),
        of_draft(depth, DraftTable::GlobalExpressions, 2),
        of_draft(steady, DraftTable::EntryPoint(0), 4),
        of_draft(depth, DraftTable::Types, 4),
    ]
}

// Depth and steadiness in one list, with what each walk leaves.
#[test]
fn mixed(rt: HostRuntime) -> Result<(), Fail> {
    let (depth, steady) = (Mixed::Depth, Mixed::Steady);
    let calls = products(&depth, &steady);
    let mut values = [Measure::Depth(9); 4];
    let answered = answers(&calls, &mut values);
    assert_eq!(rt; tally(answered[0]), Some((0, 0)));
    assert!(rt; matches!(answered[5], Some(Outcome::Sealed(Ok(())))));
    assert_eq!(rt; tally(answered[6]), Some((3, 2)));
    assert_eq!(rt; tally(answered[7]), Some((3, 2)));
    assert!(rt; is_refused(answered[8], 15));
    assert!(rt; is_refused(answered[9], 14));
    assert_eq!(rt; tally(answered[10]), Some((0, 0)));
    assert!(rt; answered[11].is_none());
    let yes = Measure::Steady(true);
    assert!(rt; values == [yes, yes, yes, Measure::Depth(9)]);
    let answered = answers(&calls[..7], &mut values);
    assert!(rt; answered[7].is_none());
    assert!(rt;
        values
            == [
                Measure::Depth(1),
                Measure::Depth(1),
                Measure::Depth(2),
                Measure::Depth(9)
            ]
    );
    Ok(())
}

// Nothing is walked of a draft that sealing refuses: its fault is the answer.
#[test]
fn not_sealed(rt: HostRuntime) -> Result<(), Fail> {
    let depth = Mixed::Depth;
    let calls = [
        Call::Put(&FUNCTION),
        of_draft(&depth, DraftTable::Types, 4),
        Call::Put(&END_FUNCTION),
        of_draft(&depth, DraftTable::Functions, 4),
        Call::Put(&PRODUCT),
        Call::Check,
        of_draft(&depth, DraftTable::Functions, 4),
    ];
    let mut values = [Measure::Steady(false); 4];
    let answered = answers(&calls, &mut values);
    assert!(rt;
        matches!(
            answered[1],
            Some(Outcome::Walked(Err(Denial::Rejected(Rejection::Unfinished))))
        )
    );
    assert_eq!(rt; tally(answered[3]), Some((1, 0)));
    assert!(rt; matches!(answered[5], Some(Outcome::Checked(Ok(())))));
    assert!(rt;
        matches!(
            answered[6],
            Some(Outcome::Walked(Err(Denial::Rejected(Rejection::Faulty(_)))))
        )
    );
    assert!(rt;
        values
            == [
                Measure::Depth(1),
                Measure::Steady(false),
                Measure::Steady(false),
                Measure::Steady(false)
            ]
    );
    Ok(())
}

// Tables of another draft, which is never sealed: the one is refused for its first operand that is not earlier.
#[test]
fn own_tables(rt: HostRuntime) -> Result<(), Fail> {
    let mut bytes = [0; 128];
    let mut slots = [Slot::EMPTY; 8];
    let mut late = Draft::new();
    late.put(&mut bytes, &mut slots, &LITERAL)?;
    late.put(&mut bytes, &mut slots, &PRODUCT)?;
    let late = GlobalExpressionTable::new(late.view(&bytes, &slots));
    let mut more_bytes = [0; 128];
    let mut more_slots = [Slot::EMPTY; 8];
    let mut early = Draft::new();
    early.put(&mut more_bytes, &mut more_slots, &LITERAL)?;
    early.put(&mut more_bytes, &mut more_slots, &GLOBAL_VARIABLE)?;
    early.put(&mut more_bytes, &mut more_slots, &PRODUCT)?;
    let early = GlobalExpressionTable::new(early.view(&more_bytes, &more_slots));
    let steady = Mixed::Steady;
    let calls = [of_own(&steady, late), of_own(&steady, early)];
    let mut values = [Measure::Depth(0); 3];
    let answered = answers(&calls, &mut values);
    assert!(rt;
        matches!(
            answered[0],
            Some(Outcome::Walked(Err(Denial::Late(Late {
                item: 1,
                operand: 1
            }))))
        )
    );
    assert_eq!(rt; tally(answered[1]), Some((3, 2)));
    assert!(rt;
        values
            == [
                Measure::Steady(true),
                Measure::Steady(false),
                Measure::Steady(false)
            ]
    );
    Ok(())
}
