//! The report of one image.
ghost use Rattle.seal.specs.Sealed.{IsSealedDraft};

use any_draft::drafts::{AnyDraft, Outcome};
use arena::answer::answered_number;
use arena::view::View;
use command::Options;
use draft::refusal::Refusal;
use images::question::Question;
use module_row::rows::row;
use module_text::named::show_names;
use module_text::show::{Fields, Numbered, Totals};
use module_text::verdict;
use module_text::verdict::word;
use records::image::{Record, Records};
use seal::sealed::Sealed;
use std::alloc::Global;
use std::fmt::Display;
use std::io::Write;
use std::{fmt, io};

/// A part of an image, where it stands there, and what the draft answered to it.
#[derive(Clone, Copy)]
struct Entry<'a> {
    index: usize,
    offset: usize,
    record: Record<'a>,
    outcome: Outcome,
}

impl Entry<'_> {
    /// The number of the kind, as it stands in the part.
    // A byte and no `Kind`: a part of no kind is shown by it too.
    fn kind_byte(&self) -> u8 {
        self.record.bytes.first().copied().unwrap_or(0)
    }
}

/// An entry on one line, by numbers.
#[derive(Clone, Copy)]
struct Plain<'a>(Entry<'a>);

impl Display for Plain<'_> {
    fn fmt<W: fmt::Write>(&self, f: &mut fmt::Formatter<W>) -> fmt::Result {
        let Plain(entry) = self;
        write!(f, "record {} {} ", entry.index, entry.kind_byte())?;
        match entry.outcome {
            Ok(answer) => write!(f, "{}", answered_number(answer)),
            Err(refusal) => write!(f, "refused {}", refusal.number()),
        }
    }
}

/// An entry in words, and its fields, each on a line of its own.
#[derive(Clone, Copy)]
struct Full<'a>(Entry<'a>);

impl Display for Full<'_> {
    fn fmt<W: fmt::Write>(&self, f: &mut fmt::Formatter<W>) -> fmt::Result {
        let Full(entry) = self;
        let record = entry.record;
        write!(f, "record {} at {}: ", entry.index, entry.offset)?;
        match record.parts() {
            Ok((kind, _)) => write!(f, "{} {kind}", kind.number())?,
            Err(_) => write!(f, "{}", entry.kind_byte())?,
        }
        match entry.outcome {
            Ok(Some(handle)) => writeln!(f, " -> {handle}")?,
            Ok(None) => writeln!(f, " -> no number")?,
            Err(refusal) => writeln!(f, " refused {}: {refusal}", refusal.number())?,
        }
        match record.judge().and(record.body()) {
            Ok((kind, body)) => write!(f, "{}", Fields { kind, body }),
            Err(_) => Ok(()),
        }
    }
}

/// Where the report of an image goes, and how it is written.
#[derive(Drop)]
pub struct Reporter<'a, W> {
    pub out: &'a mut W,
    pub heap: Global,
    pub options: Options,
}

impl<W: Write> Reporter<'_, W> {
    /// Shows what the draft answered to a part; whether to go on behind it.
    // A `bool`: a `ControlFlow` would hold nothing either way.
    fn show_entry(&mut self, entry: Entry<'_>) -> io::Result<bool> {
        if self.options.plain {
            writeln!(self.out, "{}", Plain(entry))?;
        } else {
            write!(self.out, "{}", Full(entry))?;
        }
        Ok(entry.outcome.is_ok() || self.options.keep_going)
    }

    /// Shows an answer of a draft.
    pub(crate) fn show_answer(&mut self, answer: verdict::Plain, view: View<'_>) -> io::Result<()> {
        if self.options.plain {
            writeln!(self.out, "{answer}")
        } else {
            writeln!(self.out, "{}", verdict::Full::of(answer, view))
        }
    }

    /// Shows a row of a sealed draft.
    fn show_row(&mut self, sealed: &Sealed<'_>) -> io::Result<()>
        requires { IsSealedDraft sealed.now }
    {
        write!(self.out, "row")?;
        for item in &row(self.heap, sealed)? {
            write!(self.out, " {}", Numbered(*item))?;
        }
        writeln!(self.out)
    }

    /// Shows what the draft has come to.
    fn show_end<D: AnyDraft>(&mut self, draft: &D) -> io::Result<()> {
        let view = draft.view();
        if !self.options.plain {
            write!(self.out, "{}", Totals(draft.counts()))?;
            show_names(self.out, view)?;
        }
        self.show_answer(verdict::Plain::of(Question::Check, draft), view)?;
        let sealed = draft.sealed();
        self.show_answer(verdict::Plain::sealed(&sealed), view)?;
        match sealed {
            Ok(sealed) => {
                self.show_row(&sealed)?;
                self.show_walks(&sealed)
            }
            Err(_) => Ok(()),
        }
    }

    /// Puts each record of an image into a new draft and shows what it answered, up to the first that
    /// it refused unless it is to keep going; then what the draft has come to.
    pub fn report<D: AnyDraft + Drop>(&mut self, image: &[u8], mut draft: D) -> io::Result<()> {
        // A sum beside the index: a `scan` would keep it in a closure that changes.
        let mut offset = 0;
        for (index, record) in Records::new(image).enumerate() {
            let outcome = draft.put(record.bytes)?;
            let goes_on = self.show_entry(Entry {
                index,
                offset,
                record,
                outcome,
            })?;
            if !goes_on {
                break;
            }
            offset += record.bytes.len();
        }
        self.show_end(&draft)
    }

    /// Shows on one line that a draft refused a record.
    fn show_refusal(
        &mut self,
        question: Question,
        name: &str,
        index: usize,
        refusal: Refusal,
    ) -> io::Result<()> {
        let (question, number) = (word(question), refusal.number());
        if self.options.plain {
            writeln!(self.out, "{name}: {question} {number} 0 0 0 0")
        } else {
            writeln!(
                self.out,
                "{name}: record {index} refused {number}: {refusal}"
            )
        }
    }

    /// Puts each record of an image into a draft, up to the first that it refuses, which is shown; whether it
    /// refuses none.
    pub(crate) fn put_all<D: AnyDraft>(
        &mut self,
        question: Question,
        name: &str,
        image: &[u8],
        draft: &mut D,
    ) -> io::Result<bool> {
        for (index, record) in Records::new(image).enumerate() {
            if let Err(refusal) = draft.put(record.bytes)? {
                self.show_refusal(question, name, index, refusal)?;
                return Ok(false);
            }
        }
        Ok(true)
    }

    /// Puts each record of an image into a new draft, up to the first that it refuses, and shows on one line
    /// what the draft answers to a question; whether it passes.
    pub fn ask<D: AnyDraft + Drop>(
        &mut self,
        question: Question,
        name: &str,
        image: &[u8],
        mut draft: D,
    ) -> io::Result<bool> {
        if !self.put_all(question, name, image, &mut draft)? {
            return Ok(false);
        }
        let answer = verdict::Plain::of(question, &draft);
        write!(self.out, "{name}: ")?;
        self.show_answer(answer, draft.view())?;
        Ok(answer.is_passed())
    }
}
