//! What is answered for an image, by five numbers.
ghost use Rattle.std.specs.Prelude.{◌≡◌};
ghost use Rattle.std.specs.Result.{result_err};
ghost use Rattle.images.specs.Answer.{numbers};

use crate::refusal::ImageRefusal;

/// The number of the refusal, what the next two numbers count, these two, and the place of the record
/// under test: all 0 where the image passes, and the last four 0 where put refuses or something is
/// unfinished.
// Numbers and no enums: it goes to C, where the order and the sizes of the fields count.
#[derive(Clone, Copy)]
#[repr(C)]
pub struct Verdict {
    pub number: u32,
    pub kind: u32,
    pub first: usize,
    pub second: usize,
    pub position: usize,
}

impl Verdict {
    /// The numbers of an answer.
    pub fn of(answer: Result<(), ImageRefusal>) -> Verdict
        ensures { result ≡ numbers (result_err answer) }
    {
        let passed = Verdict {
            number: 0,
            kind: 0,
            first: 0,
            second: 0,
            position: 0,
        };
        match answer {
            Ok(()) => passed,
            Err(ImageRefusal::Put(refusal)) => Verdict {
                number: u32::from(refusal.number()),
                ..passed
            },
            Err(ImageRefusal::Module(rejection)) => Verdict {
                number: u32::from(rejection.number()),
                kind: u32::from(rejection.kind()),
                first: rejection.first(),
                second: rejection.second(),
                position: rejection.place(),
            },
        }
    }
}
