//! Rows of sealed drafts.

use crate::rows::{RowItem, row};
use arena::Draft;
use arena::slot::Slot;
use seal::seal::seal;
use std::alloc::Global;
use std::test::Fail;

/// The row of a draft of these records.
fn row_of(heap: Global, records: &[&[u8]]) -> Result<Vec<RowItem>, Fail> {
    let mut bytes = [0; 128];
    let mut slots = [Slot::EMPTY; 8];
    let mut draft = Draft::new();
    for record in records {
        draft.put(&mut bytes, &mut slots, record)?;
    }
    let sealed = seal(&draft, &bytes, &slots)?;
    Ok(row(heap, &sealed)?)
}

// An array whose size waits for a literal, a constant of that array, and a composition of it.
#[test]
fn waiting(rt: HostRuntime) -> Result<(), Fail> {
    let scalar = [16, 0, 0, 0, 0, 0, 0, 0, 0];
    let literal = [64, 0, 0, 0, 0];
    let size = [3, 0, 0, 0, 0, 0, 0, 0, 0, 0, 0, 0, 0, 0, 0, 0, 0];
    let array = [23, 0, 0, 0, 0, 0, 0, 0, 0, 1, 0, 0, 0, 0, 4, 0, 0, 0];
    let constant = [4, 0, 0, 0, 0, 1, 0, 0, 0, 0, 0, 0, 0];
    let component = [2, 0, 0, 0, 0];
    let compose = [68, 1, 0, 0, 0];
    let row = row_of(
        rt.alloc(),
        &[
            &scalar, &literal, &size, &array, &constant, &component, &compose,
        ],
    )?;
    let expected = [
        RowItem::Type(0),
        RowItem::Expression(0),
        RowItem::Override(0),
        RowItem::Type(1),
        RowItem::Constant(0),
        RowItem::Expression(1),
    ];
    assert!(rt; row.as_slice() == expected.as_slice());
    Ok(())
}

// A module with no items.
#[test]
fn empty(rt: HostRuntime) -> Result<(), Fail> {
    let row = row_of(rt.alloc(), &[])?;
    assert!(rt; row.is_empty());
    Ok(())
}
