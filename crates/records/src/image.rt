//! An image cut into records.
ghost use Rattle.std.specs.Prelude.{◌≡◌, ℕ, List, [], length, MatchOption};
ghost use Rattle.std.specs.List.{flat_map};
ghost use Rattle.records.specs.Image.{front_size, split, Cut};
ghost use Rattle.std.specs.Iterator.{at_most};

use ir::kinds::Kind;

/// A part of an image: one byte of kind and then a body, or what is no record.
#[derive(Clone, Copy)]
pub struct Record<'a> {
    pub bytes: &'a [u8],
}

/// What is left of an image to be cut into records.
#[derive(Clone, Copy)]
pub struct Records<'a> {
    pub rest: &'a [u8],
}

/// How many bytes the first part of an image has.
fn front_size(image: &[u8]) -> usize
    ensures { result ≡ front_size image.now }
{
    let [byte, body @ ..] = image else {
        return 0;
    };
    match Kind::try_from(*byte) {
        Ok(kind) => 1 + kind.size().min(body.len()),
        Err(_) => 1 + body.len(),
    }
}

impl<'a> Records<'a> {
    /// The parts of `image`: put together again, they are the image.
    pub fn new(image: &'a [u8]) -> Records<'a>
        ensures rest { result.rest.now ≡ image.now }
        ensures together { flat_map (λ part. part) (split image.now) ≡ image.now }
    {
        Records { rest: image }
    }
}

impl<'a> Iterator for Records<'a> {
    type Item = Record<'a>;

    ghost next_gives = { λ s r t. MatchOption r ((s.rest.now ≡ []) × (t.rest.now ≡ [])) (λ x. Cut s.rest.now x.bytes.now t.rest.now) };

    ghost remaining = { λ s. at_most (length s.rest.now) };

    fn next(&mut self) -> Option<Record<'a>> {
        if self.rest.is_empty() {
            return None;
        }
        let (bytes, rest) = self.rest.split_at(front_size(self.rest));
        self.rest = rest;
        Some(Record { bytes })
    }
}
