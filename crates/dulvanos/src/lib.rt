//! The calls for C.
#![tactic(auto)]

ghost use Rattle.std.specs.Prelude.{◌≡◌, length};
ghost use Rattle.images.specs.declared.question.Question.TheVariants.{Check, Seal};
ghost use Rattle.images.specs.Answer.{verdict_in};
ghost use Rattle.images.specs.Law.{Answers};
ghost use Rattle.walk.specs.Readings.{depth};
ghost use Rattle.image_walks.specs.Table.{numbered_table};
ghost use Rattle.image_walks.specs.Answer.{nodes_walked, numbers};
ghost use Rattle.walk.specs.Leaves.{tallied, Leaves};
ghost use Rattle.image_walks.specs.Flags.{LeavesFlags};

use image_walks::fixed::walk_within;
use image_walks::flags::Flags;
use image_walks::table::numbered_table;
use image_walks::walked::Walked;
use images::fixed::{BYTES, LARGE_BYTES, LARGE_SLOTS, SLOTS, ask, ask_large};
use images::question::Question;
use images::verdict::Verdict;
use walk::depth::Depth;

/// The number of the refusal of an image, or 0 where it passes the check.
#[unsafe(no_mangle)]
pub extern "C" fn dulvanos_check_number(image: &[u8]) -> u32
    ensures { result ≡ (verdict_in Check BYTES SLOTS image.now).number }
{
    dulvanos_check(image).number
}

/// What the numbers of the fault count, or 0.
#[unsafe(no_mangle)]
pub extern "C" fn dulvanos_check_kind(image: &[u8]) -> u32
    ensures { result ≡ (verdict_in Check BYTES SLOTS image.now).kind }
{
    dulvanos_check(image).kind
}

/// The first number of the fault, or 0.
#[unsafe(no_mangle)]
pub extern "C" fn dulvanos_check_first(image: &[u8]) -> usize
    ensures { result ≡ (verdict_in Check BYTES SLOTS image.now).first }
{
    dulvanos_check(image).first
}

/// The second number of the fault, or 0.
#[unsafe(no_mangle)]
pub extern "C" fn dulvanos_check_second(image: &[u8]) -> usize
    ensures { result ≡ (verdict_in Check BYTES SLOTS image.now).second }
{
    dulvanos_check(image).second
}

/// The place of the record under test among the kept records, or 0.
#[unsafe(no_mangle)]
pub extern "C" fn dulvanos_check_position(image: &[u8]) -> usize
    ensures { result ≡ (verdict_in Check BYTES SLOTS image.now).position }
{
    dulvanos_check(image).position
}

/// All five numbers of the check.
#[unsafe(no_mangle)]
pub extern "C" fn dulvanos_check(image: &[u8]) -> Verdict
    ensures answer { result ≡ verdict_in Check BYTES SLOTS image.now }
    ensures law { Answers Check BYTES SLOTS image.now result }
{
    ask(Question::Check, image)
}

/// All five numbers of the check, in memory for a large image, where the records are put and checked so
/// many times, and at least once.
#[unsafe(no_mangle)]
pub extern "C" fn dulvanos_check_large(image: &[u8], times: u32) -> Verdict
    ensures answer { result ≡ verdict_in Check LARGE_BYTES LARGE_SLOTS image.now }
    ensures law { Answers Check LARGE_BYTES LARGE_SLOTS image.now result }
{
    ask_large(Question::Check, image, times)
}

/// The number of the refusal of an image, or 0 where it passes sealing.
#[unsafe(no_mangle)]
pub extern "C" fn dulvanos_seal_number(image: &[u8]) -> u32
    ensures { result ≡ (verdict_in Seal BYTES SLOTS image.now).number }
{
    dulvanos_seal(image).number
}

/// What the numbers of sealing's fault count, or 0.
#[unsafe(no_mangle)]
pub extern "C" fn dulvanos_seal_kind(image: &[u8]) -> u32
    ensures { result ≡ (verdict_in Seal BYTES SLOTS image.now).kind }
{
    dulvanos_seal(image).kind
}

/// The first number of sealing's fault, or 0.
#[unsafe(no_mangle)]
pub extern "C" fn dulvanos_seal_first(image: &[u8]) -> usize
    ensures { result ≡ (verdict_in Seal BYTES SLOTS image.now).first }
{
    dulvanos_seal(image).first
}

/// The second number of sealing's fault, or 0.
#[unsafe(no_mangle)]
pub extern "C" fn dulvanos_seal_second(image: &[u8]) -> usize
    ensures { result ≡ (verdict_in Seal BYTES SLOTS image.now).second }
{
    dulvanos_seal(image).second
}

/// The place of the record that sealing tested among the kept records, or 0.
#[unsafe(no_mangle)]
pub extern "C" fn dulvanos_seal_position(image: &[u8]) -> usize
    ensures { result ≡ (verdict_in Seal BYTES SLOTS image.now).position }
{
    dulvanos_seal(image).position
}

/// All five numbers of sealing.
#[unsafe(no_mangle)]
pub extern "C" fn dulvanos_seal(image: &[u8]) -> Verdict
    ensures answer { result ≡ verdict_in Seal BYTES SLOTS image.now }
    ensures law { Answers Seal BYTES SLOTS image.now result }
{
    ask(Question::Seal, image)
}

/// All five numbers of sealing, in memory for a large image, where the records are put and sealed so
/// many times, and at least once.
#[unsafe(no_mangle)]
pub extern "C" fn dulvanos_seal_large(image: &[u8], times: u32) -> Verdict
    ensures answer { result ≡ verdict_in Seal LARGE_BYTES LARGE_SLOTS image.now }
    ensures law { Answers Seal LARGE_BYTES LARGE_SLOTS image.now result }
{
    ask_large(Question::Seal, image, times)
}

/// Writes the depth of each item of a table of a sealed image, one more than that of its deepest operand.
#[unsafe(no_mangle)]
pub extern "C" fn dulvanos_depth(image: &[u8], table: u32, body: u32, values: &mut [u32]) -> Walked
    ensures answer { result ≡ numbers (tallied (nodes_walked BYTES SLOTS image.now (numbered_table table body) (length values.old))) }
    ensures values { Leaves depth (nodes_walked BYTES SLOTS image.now (numbered_table table body) (length values.old)) values.old values.new }
{
    walk_within::<Depth, BYTES, SLOTS>(numbered_table(table, body), &Depth, values, image)
}

/// The same in memory for a large image.
#[unsafe(no_mangle)]
pub extern "C" fn dulvanos_depth_large(
    image: &[u8],
    table: u32,
    body: u32,
    values: &mut [u32],
) -> Walked
    ensures answer { result ≡ numbers (tallied (nodes_walked LARGE_BYTES LARGE_SLOTS image.now (numbered_table table body) (length values.old))) }
    ensures values { Leaves depth (nodes_walked LARGE_BYTES LARGE_SLOTS image.now (numbered_table table body) (length values.old)) values.old values.new }
{
    walk_within::<Depth, LARGE_BYTES, LARGE_SLOTS>(
        numbered_table(table, body),
        &Depth,
        values,
        image,
    )
}

/// Writes for each item of a table of a sealed image whether it is steady, by 1 and 0.
#[tactic(auto, using(image_walks::proofs::Steadiness::leaves_flags))]
#[unsafe(no_mangle)]
pub extern "C" fn dulvanos_steady(image: &[u8], table: u32, body: u32, values: &mut [u8]) -> Walked
    ensures answer { result ≡ numbers (tallied (nodes_walked BYTES SLOTS image.now (numbered_table table body) (length values.old))) }
    ensures values { LeavesFlags (nodes_walked BYTES SLOTS image.now (numbered_table table body) (length values.old)) values.old values.new }
{
    walk_within::<Flags, BYTES, SLOTS>(numbered_table(table, body), &Flags, values, image)
}

/// The same in memory for a large image.
#[tactic(auto, using(image_walks::proofs::Steadiness::leaves_flags))]
#[unsafe(no_mangle)]
pub extern "C" fn dulvanos_steady_large(
    image: &[u8],
    table: u32,
    body: u32,
    values: &mut [u8],
) -> Walked
    ensures answer { result ≡ numbers (tallied (nodes_walked LARGE_BYTES LARGE_SLOTS image.now (numbered_table table body) (length values.old))) }
    ensures values { LeavesFlags (nodes_walked LARGE_BYTES LARGE_SLOTS image.now (numbered_table table body) (length values.old)) values.old values.new }
{
    walk_within::<Flags, LARGE_BYTES, LARGE_SLOTS>(
        numbered_table(table, body),
        &Flags,
        values,
        image,
    )
}
