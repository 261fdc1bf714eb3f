//! The handles of a record.
ghost use Rattle.std.specs.Prelude.{◌≡◌, true, length};
ghost use Rattle.std.specs.List.{slice_get};
ghost use Rattle.std.specs.List.Sorted.{IsPermutation};
ghost use Rattle.std.specs.Iterator.{YieldsFirst, item_count};
ghost use Rattle.records.specs.Handles.{handles_of, tested_of, field_of};
ghost use Rattle.records.specs.Left.{placed_at, body_left};
ghost use Rattle.records.specs.Gathered.{word_handles, handles_at, handles_in, tested_in, handles_left};

use crate::body::{Body, Placed, Words};
use crate::image::Record;
use ir::handle::Handle;

/// The handles that are left in a body: those in the words that are put in front and in the words of the
/// field that is begun, and then those of the fields behind it.
#[derive(Clone, Copy)]
pub struct Handles<'a> {
    front: Words<'a>,
    words: Words<'a>,
    later: Body<'a>,
}

/// The first word that is a handle, and the words behind it are left.
// Not by `find_map`, of which the proof did not close: where it gives `None`, its contract does not say that
// no word is left.
#[inline(always)]
fn next_handle(words: &mut Words<'_>) -> Option<Handle>
    ensures { YieldsFirst word_handles words.old result words.new }
{
    while let Some((word, number)) = words.next() {
        if let Some(handle) = word.handle(number) {
            return Some(handle);
        }
    }
    None
}

/// The words of a field: none where the byte of its case is no case.
#[inline(always)]
fn words_of(field: Placed<'_>) -> Words<'_>
    ensures { word_handles result ≡ handles_at (placed_at field.entry) }
{
    field.words().unwrap_or(Words::none())
}

impl<'a> Handles<'a> {
    /// Those of a body.
    fn of(body: Body<'a>) -> Handles<'a>
        ensures { handles_left result ≡ handles_in (body_left body.entry) }
    {
        Handles {
            front: Words::none(),
            words: Words::none(),
            later: body,
        }
    }

    /// Those of one field.
    fn of_field(field: Placed<'a>) -> Handles<'a>
        ensures { handles_left result ≡ handles_at (placed_at field.entry) }
    {
        Handles {
            front: Words::none(),
            words: words_of(field),
            later: Body::none(),
        }
    }

    /// Those of a body, the second field before the first.
    fn second_first(body: Body<'a>) -> Handles<'a>
        ensures { handles_left result ≡ tested_in (body_left body.entry) }
    {
        let mut later = body;
        let (Some(first), Some(second)) = (later.next(), later.next()) else {
            return Handles::of(body);
        };
        Handles {
            front: words_of(second),
            words: words_of(first),
            later,
        }
    }
}

impl<'a> Iterator for Handles<'a> {
    type Item = Handle;

    ghost next_gives = { YieldsFirst handles_left };

    ghost remaining = { item_count handles_left };

    // A flatten by hand: `FlatMap` has a closure in its type, which a field cannot name.
    #[inline(always)]
    fn next(&mut self) -> Option<Handle> {
        if let Some(handle) = next_handle(&mut self.front) {
            return Some(handle);
        }
        loop {
            if let Some(handle) = next_handle(&mut self.words) {
                return Some(handle);
            }
            let field = self.later.next()?;
            self.words = words_of(field);
        }
    }
}

impl<'a> Record<'a> {
    /// Its handles in order of declaration, of which what is no record has none.
    pub fn handles(self) -> Handles<'a>
        ensures { handles_left result ≡ handles_of self.entry.bytes.now }
    {
        match self.body() {
            Ok((_, body)) => Handles::of(body),
            Err(_) => Handles::of(Body::none()),
        }
    }

    /// How many handles it has.
    pub fn handle_count(self) -> usize
        ensures { result ≡ length (handles_of self.entry.bytes.now) }
    {
        self.handles().count()
    }

    /// The handle at a place in order of declaration, or none past the last.
    pub fn handle(self, place: usize) -> Option<Handle>
        ensures { result ≡ slice_get (handles_of self.entry.bytes.now) place }
    {
        self.handles().nth(place)
    }

    /// Those in one field, the first field being 0: none past the last.
    pub fn field_handles(self, field: usize) -> Handles<'a>
        ensures { handles_left result ≡ field_of self.entry.bytes.now field }
    {
        match self.body() {
            Ok((_, mut body)) => match body.nth(field) {
                Some(placed) => Handles::of_field(placed),
                None => Handles::of(Body::none()),
            },
            Err(_) => Handles::of(Body::none()),
        }
    }

    /// Its handles in the order in which those of an expression or a statement are tested. They are the
    /// same handles.
    pub fn tested_handles(self) -> Handles<'a>
        ensures order { handles_left result ≡ tested_of self.entry.bytes.now }
        ensures same { IsPermutation (handles_of self.entry.bytes.now) (tested_of self.entry.bytes.now) }
    {
        match self.body() {
            Ok((kind, body)) if kind.second_first() => Handles::second_first(body),
            _ => self.handles(),
        }
    }

    /// The handle at a place in that order, or none past the last.
    pub fn tested_handle(self, place: usize) -> Option<Handle>
        ensures place { result ≡ slice_get (tested_of self.entry.bytes.now) place }
        ensures same { IsPermutation (handles_of self.entry.bytes.now) (tested_of self.entry.bytes.now) }
    {
        self.tested_handles().nth(place)
    }
}
