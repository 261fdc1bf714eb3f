//! The answer for an image in memory of a fixed size, on the stack.
ghost use Rattle.std.specs.Prelude.{◌≡◌};
ghost use Rattle.images.specs.Answer.{verdict_in};
ghost use Rattle.images.specs.Law.{Answers};

use crate::ask::ask_image;
use crate::question::Question;
use crate::verdict::Verdict;
use arena::slot::Slot;

/// How many bytes the records of an image may take.
pub const BYTES: usize = 1_048_576;

/// How many records of an image may be kept.
pub const SLOTS: usize = 65_536;

/// How many bytes the records of a large image may take.
pub const LARGE_BYTES: usize = 4_194_304;

/// How many records of a large image may be kept.
pub const LARGE_SLOTS: usize = 262_144;

/// Bytes to lend to a new draft.
// It promises nothing: a contract that named the elements would be unfolded element by element.
fn blank_bytes<const N: usize>() -> [u8; N] {
    [0; N]
}

/// Slots to lend to a new draft.
fn blank_slots<const N: usize>() -> [Slot; N] {
    [Slot::EMPTY; N]
}

/// What is answered for an image in 1,048,576 bytes and 65,536 slots, which take about 2 MiB of stack.
#[tactic(auto, using(crate::proofs::Meaning::answers))]
pub fn ask(question: Question, image: &[u8]) -> Verdict
    ensures answer { result ≡ verdict_in question BYTES SLOTS image.now }
    ensures law { Answers question BYTES SLOTS image.now result }
{
    let mut bytes: [u8; BYTES] = blank_bytes();
    let mut slots: [Slot; SLOTS] = blank_slots();
    Verdict::of(ask_image(question, &mut bytes, &mut slots, image))
}

/// What is answered for an image in 4,194,304 bytes and 262,144 slots, which take about 8 MiB of stack:
/// put and asked of so many times in the same memory, and at least once, with the last answer.
// More than once only to be measured: no contract tells how often.
#[tactic(auto, using(crate::proofs::Meaning::answers))]
pub fn ask_large(question: Question, image: &[u8], times: u32) -> Verdict
    ensures answer { result ≡ verdict_in question LARGE_BYTES LARGE_SLOTS image.now }
    ensures law { Answers question LARGE_BYTES LARGE_SLOTS image.now result }
{
    let mut bytes: [u8; LARGE_BYTES] = blank_bytes();
    let mut slots: [Slot; LARGE_SLOTS] = blank_slots();
    let mut answer = ask_image(question, &mut bytes, &mut slots, image);
    for _ in 1..times {
        answer = ask_image(question, &mut bytes, &mut slots, image);
    }
    Verdict::of(answer)
}
