//! The tests of the statements of a body.
ghost use Rattle.std.specs.Prelude.{◌≡◌, ◌<◌, ◌≤◌, [], ◌∷◌, length, IfOk, MatchBool, MatchOption, true};
ghost use Rattle.std.specs.List.{flat_map};
ghost use Rattle.std.specs.Option.{option_or};
ghost use Rattle.records.specs.Handles.{handles_of, field_of};
ghost use Rattle.records.specs.Image.{split};
ghost use Rattle.rules.specs.declared.faults.Rule.TheVariants as rule;
ghost use Rattle.rules.specs.Fault.{first, range, all_inside};
ghost use Rattle.rules.specs.Firsts.{failure};
ghost use Rattle.rules.specs.Kinds.{Emit, is};
ghost use Rattle.rules.specs.Check.{call_handles, image_atomic_handles, start_of, end_of, statement_tests};
ghost use Rattle.items.specs.Item.{shown, items_left};
ghost use Rattle.body.specs.Errors.{bad_handle, bad_range, invalid_handle};

use crate::errors::{BadHandle, BadRangeError, InvalidHandleError};
use crate::inside::{check_handles, check_range};
use items::item::Item;
use items::items::Items;
use records::image::{Record, Records};
use rules::sizes::Sizes;

const EMIT: u8 = 128;

const BLOCK: u8 = 129;

const IF: u8 = 130;

const SWITCH: u8 = 131;

const LOOP: u8 = 132;

const IMAGE_ATOMIC: u8 = 142;

const CALL: u8 = 144;

const END: u8 = 151;

const LOOP_END: u8 = 152;

const CASE: u8 = 153;

const SWITCH_END: u8 = 154;

/// The handles in some fields of a record at a place are inside, field after field.
pub fn check_fields(
    record: Record<'_>,
    fields: &[usize],
    sizes: Sizes,
    place: usize,
) -> Result<(), BadHandle>
    ensures { failure bad_handle result ≡ first (all_inside rule.Inside sizes place (flat_map (field_of «record».entry.bytes.now) fields.now)) }
{
    for field in fields {
        check_handles(record.field_handles(*field), sizes, place)?;
    }
    Ok(())
}

/// The handles of the records that a statement at a place took are inside.
fn check_taken(taken: Records<'_>, sizes: Sizes, place: usize) -> Result<(), BadHandle>
    ensures { failure bad_handle result ≡ first (all_inside rule.Inside sizes place (flat_map handles_of (split taken.entry.rest.now))) }
{
    for record in taken {
        check_handles(record.handles(), sizes, place)?;
    }
    Ok(())
}

/// The function, the operands and the result of a Call are inside.
#[tactic(auto, using(crate::proofs::Gathered::inside_first))]
fn check_call(call: Item<'_>, sizes: Sizes) -> Result<(), BadHandle>
    ensures { failure bad_handle result ≡ first (all_inside rule.Inside sizes call.entry.place (call_handles (shown call.entry))) }
{
    check_fields(call.record, &[0], sizes, call.place)?;
    check_taken(call.taken, sizes, call.place)?;
    check_fields(call.record, &[1], sizes, call.place)
}

/// The range of an Emit is empty, or starts before its end and ends inside.
fn check_emit(emit: Item<'_>, sizes: Sizes) -> Result<(), BadRangeError>
    requires { is Emit (shown emit) ≡ true }
    ensures { failure bad_range result ≡ first (range sizes.expressions emit.entry.place (start_of (shown emit.entry)) (end_of (shown emit.entry)) ∷ []) }
{
    let [_, a, b, c, d, e, f, g, h] = emit.record.bytes else {
        unreachable!()
    };
    let start = u32::from_le_bytes([*a, *b, *c, *d]);
    let end = u32::from_le_bytes([*e, *f, *g, *h]);
    check_range(sizes.expressions, start, end, emit.place)
}

/// A statement, or the record that closes a block: its range or its handles.
fn check_statement(statement: Item<'_>, sizes: Sizes) -> Result<(), InvalidHandleError>
    ensures { failure invalid_handle result ≡ first (statement_tests sizes (shown statement.entry)) }
{
    let record = statement.record;
    match record.bytes {
        [EMIT, ..] => check_emit(statement, sizes)?,
        [CALL, ..] => check_call(statement, sizes)?,
        [IMAGE_ATOMIC, ..] => check_fields(record, &[0, 1, 2, 4], sizes, statement.place)?,
        _ => check_handles(record.tested_handles(), sizes, statement.place)?,
    }
    Ok(())
}

/// The next statement, which passes.
fn next_statement<'a>(
    left: &mut Items<'a>,
    sizes: Sizes,
) -> Result<Option<Item<'a>>, InvalidHandleError>
    ensures tested { first (flat_map (statement_tests sizes) (items_left left.old)) ≡ option_or (failure invalid_handle result) (first (flat_map (statement_tests sizes) (items_left left.new))) }
    ensures fewer { IfOk result (λ o. MatchOption o (items_left left.new ≡ []) (λ _. length (items_left left.new) < length (items_left left.old))) }
{
    let Some(statement) = left.next() else {
        return Ok(None);
    };
    check_statement(statement, sizes)?;
    Ok(Some(statement))
}

/// Tests the statements of a block and of those inside it, in order, up to the record that closes it, and
/// says whether there is one: the body ends a block that no record closes.
fn validate_block_handles(left: &mut Items<'_>, sizes: Sizes) -> Result<bool, InvalidHandleError>
    ensures tested { first (flat_map (statement_tests sizes) (items_left left.old)) ≡ option_or (failure invalid_handle result) (first (flat_map (statement_tests sizes) (items_left left.new))) }
    ensures fewer { IfOk result (λ closed. MatchBool closed (length (items_left left.new) < length (items_left left.old)) (items_left left.new ≡ [])) }
{
    while let Some(statement) = next_statement(left, sizes)? {
        match statement.record.bytes {
            [BLOCK | SWITCH | CASE, ..] => {
                validate_block_handles(left, sizes)?;
            }
            [IF | LOOP, ..] => {
                validate_block_handles(left, sizes)?;
                validate_block_handles(left, sizes)?;
            }
            [END | LOOP_END | SWITCH_END, ..] => return Ok(true),
            _ => {}
        }
    }
    Ok(false)
}

/// The statements of a body.
pub fn validate_statements(statements: Items<'_>, sizes: Sizes) -> Result<(), InvalidHandleError>
    ensures { failure invalid_handle result ≡ first (flat_map (statement_tests sizes) (items_left statements.entry)) }
{
    let mut left = statements;
    while validate_block_handles(&mut left, sizes)? {}
    Ok(())
}
