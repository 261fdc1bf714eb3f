//! The fields of a body, one after the other, and the words of each.
ghost use Rattle.std.specs.Prelude.{◌≡◌, ℕ, ◌*◌, ◌≤◌, [], length, Some, None, MatchOption};
ghost use Rattle.std.specs.Iterator.{YieldsFirst, YieldsFirstBy, item_count};
ghost use Rattle.ir.specs.Field.{width_of};
ghost use Rattle.ir.specs.Layout.{size_of};

use ir::fields::{Field, Word};
use std::slice;

/// Words, and the bytes that they stand in.
#[derive(Clone, Copy)]
pub struct Words<'a> {
    words: &'static [Word],
    bytes: &'a [u8],
    ghost room: { 4 * length words.now ≤ length bytes.now },
}

/// A field, and the bytes that begin with it.
#[derive(Clone, Copy)]
pub struct Placed<'a> {
    pub field: &'static Field,
    pub bytes: &'a [u8],
    ghost room: { width_of field.now ≤ length bytes.now },
}

/// Fields, and the bytes that they stand in.
#[derive(Clone, Copy)]
pub struct Body<'a> {
    fields: &'static [Field],
    bytes: &'a [u8],
    ghost room: { size_of fields.now ≤ length bytes.now },
}

impl<'a> Words<'a> {
    ghost use Rattle.records.specs.Left.{words_left};

    /// None.
    // Written out, here and at `Body`: `Default` is not derived on a struct with a ghost field.
    pub(crate) fn none() -> Words<'a>
        ensures { words_left result ≡ [] }
    {
        Words {
            words: &[],
            bytes: &[],
        }
    }
}

impl<'a> Iterator for Words<'a> {
    ghost use Rattle.records.specs.Left.{words_left};

    type Item = (Word, u32);

    ghost next_gives = { YieldsFirst words_left };

    ghost remaining = { item_count words_left };

    #[inline(always)]
    fn next(&mut self) -> Option<(Word, u32)> {
        let ([word, words @ ..], [a, b, c, d, bytes @ ..]) = (self.words, self.bytes) else {
            return None;
        };
        self.words = words;
        self.bytes = bytes;
        Some((*word, u32::from_le_bytes([*a, *b, *c, *d])))
    }
}

impl<'a> Placed<'a> {
    ghost use Rattle.records.specs.Left.{field_words, words_left};
    ghost use Rattle.records.specs.Record.{field_fits};

    /// Its words, with what each holds: none where the byte of its case is no case.
    #[inline(always)]
    pub fn words(self) -> Option<Words<'a>>
        ensures { MatchOption result (field_words self.entry.field.now self.entry.bytes.now ≡ None) (λ ws. field_words self.entry.field.now self.entry.bytes.now ≡ Some (words_left ws)) }
    {
        match (self.field, self.bytes) {
            (Field::Word(word), bytes) => Some(Words {
                words: slice::from_ref(word),
                bytes,
            }),
            (Field::Case(cases), [byte, bytes @ ..]) => {
                let words = cases.case(*byte)?;
                Some(Words { words, bytes })
            }
            _ => None,
        }
    }

    /// Whether it holds what it may.
    #[inline(always)]
    fn fits(self) -> bool
        ensures { result ≡ field_fits self.entry.field.now self.entry.bytes.now }
    {
        match self.words() {
            Some(mut words) => words.all(|(word, number)| word.fits(number)),
            None => false,
        }
    }
}

impl<'a> Body<'a> {
    ghost use Rattle.records.specs.Left.{placed, body_left, all_fit};

    /// Whether every field holds what it may.
    pub(crate) fn fits(self) -> bool
        ensures { result ≡ all_fit (body_left self.entry) }
    {
        let mut fields = self;
        fields.all(|field| field.fits())
    }

    /// None.
    pub(crate) fn none() -> Body<'a>
        ensures { body_left result ≡ [] }
    {
        Body {
            fields: &[],
            bytes: &[],
        }
    }

    /// These fields, in bytes that hold them.
    pub(crate) fn of(fields: &'static [Field], bytes: &'a [u8]) -> Body<'a>
        requires { size_of fields.now ≤ length bytes.now }
        ensures { body_left result ≡ placed fields.now bytes.now }
    {
        Body { fields, bytes }
    }
}

impl<'a> Iterator for Body<'a> {
    ghost use Rattle.records.specs.Left.{placed_at, body_left};

    type Item = Placed<'a>;

    ghost next_gives = { YieldsFirstBy placed_at body_left };

    ghost remaining = { item_count body_left };

    #[inline(always)]
    fn next(&mut self) -> Option<Placed<'a>> {
        let [field, fields @ ..] = self.fields else {
            return None;
        };
        let placed = Placed {
            field,
            bytes: self.bytes,
        };
        self.fields = fields;
        self.bytes = &self.bytes[field.width()..];
        Some(placed)
    }
}
