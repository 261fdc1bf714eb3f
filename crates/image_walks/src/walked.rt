//! What is answered for a walk, by seven numbers.
ghost use Rattle.std.specs.Prelude.{◌≡◌};
ghost use Rattle.image_walks.specs.Answer.{numbers};

use crate::refusal::ImageWalkRefusal;
use images::verdict::Verdict;
use walk::walk::Tally;

/// The five numbers of a refusal, all 0 where the table is walked and the last four 0 where the walk refuses; and then
/// how many items have their value and how many operands' values were taken, both 0 where anything refuses.
// Numbers and no enums: it goes to C, where the order and the sizes of the fields count.
#[derive(Clone, Copy)]
#[repr(C)]
pub struct Walked {
    pub number: u32,
    pub kind: u32,
    pub first: usize,
    pub second: usize,
    pub position: usize,
    pub items: usize,
    pub takes: usize,
}

impl Walked {
    /// The numbers of an answer.
    pub fn of(answer: Result<Tally, ImageWalkRefusal>) -> Walked
        ensures { result ≡ numbers answer }
    {
        let nothing = Walked {
            number: 0,
            kind: 0,
            first: 0,
            second: 0,
            position: 0,
            items: 0,
            takes: 0,
        };
        match answer {
            Ok(Tally { items, takes }) => Walked {
                items,
                takes,
                ..nothing
            },
            Err(ImageWalkRefusal::Image(refusal)) => {
                let verdict = Verdict::of(Err(refusal));
                Walked {
                    number: verdict.number,
                    kind: verdict.kind,
                    first: verdict.first,
                    second: verdict.second,
                    position: verdict.position,
                    ..nothing
                }
            }
            Err(ImageWalkRefusal::Walk(refusal)) => Walked {
                number: u32::from(refusal.number()),
                ..nothing
            },
        }
    }
}
