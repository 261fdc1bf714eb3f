//! What is shown of walks.
ghost use Rattle.std.specs.Prelude.{◌≡◌};
ghost use Rattle.seal.specs.Sealed.{IsSealedDraft};
ghost use Rattle.modseal.specs.Named.{named_table};

use crate::report::Reporter;
use any_draft::drafts::AnyDraft;
use any_draft::walking::{NoWalk, seal_and_walk};
use arena::view::View;
use command::{ReadingName, TableName};
use images::question::Question;
use module_text::walk_text::refusal_words;
use module_text::{verdict, walk_text};
use seal::sealed::Sealed;
use sealed_walk::walking::DraftTable;
use std::io;
use std::io::Write;
use walk::depth::Depth;
use walk::steady::Steady;
use walks::draft_walks::walk_draft;
use walks::table_walk::BothWalks;

/// The table that is named.
fn draft_table(table: TableName) -> DraftTable
    ensures { result ≡ named_table table }
{
    match table {
        TableName::Types => DraftTable::Types,
        TableName::Filters => DraftTable::Filters,
        TableName::Functions => DraftTable::Functions,
        TableName::Globals => DraftTable::GlobalExpressions,
        TableName::Function(number) => DraftTable::Function(number),
        TableName::EntryPoint(number) => DraftTable::EntryPoint(number),
    }
}

impl<W: Write> Reporter<'_, W> {
    /// Shows a walk.
    fn show_walk(&mut self, walk: walk_text::Plain<'_>) -> io::Result<()> {
        if self.options.plain {
            writeln!(self.out, "{walk}")
        } else {
            writeln!(self.out, "{}", walk_text::Full(walk))
        }
    }

    /// Shows the walks of a table by both readings.
    fn show_both(&mut self, table: TableName, walks: &BothWalks) -> io::Result<()> {
        self.show_walk(walk_text::Plain::depth(table, &walks.depth))?;
        self.show_walk(walk_text::Plain::steady(table, &walks.steady))
    }

    /// Shows the walks of all tables of a sealed draft.
    // The numbers of bodies have 32 bits, and put keeps no more of them.
    pub(crate) fn show_walks(&mut self, sealed: &Sealed<'_>) -> io::Result<()>
        requires { IsSealedDraft sealed.now }
    {
        let walks = walk_draft(self.heap, sealed)?;
        self.show_both(TableName::Types, &walks.types)?;
        self.show_both(TableName::Filters, &walks.filters)?;
        self.show_both(TableName::Functions, &walks.functions)?;
        self.show_both(TableName::Globals, &walks.globals)?;
        for (number, walks) in (0..=u32::MAX).zip(&walks.function_bodies) {
            self.show_both(TableName::Function(number), walks)?;
        }
        for (number, walks) in (0..=u32::MAX).zip(&walks.entry_bodies) {
            self.show_both(TableName::EntryPoint(number), walks)?;
        }
        Ok(())
    }

    /// Shows the values of a table of a draft by a reading, if it is sealed and has that table; else why there are
    /// none.
    fn show_table<D: AnyDraft>(
        &mut self,
        table: TableName,
        reading: ReadingName,
        draft: &D,
    ) -> io::Result<Option<NoWalk>> {
        let place = draft_table(table);
        match reading {
            ReadingName::Depth => match seal_and_walk(self.heap, draft, place, &Depth)? {
                Ok(walk) => self.show_walk(walk_text::Plain::depth(table, &walk))?,
                Err(denied) => return Ok(Some(denied)),
            },
            ReadingName::Steady => match seal_and_walk(self.heap, draft, place, &Steady)? {
                Ok(walk) => self.show_walk(walk_text::Plain::steady(table, &walk))?,
                Err(denied) => return Ok(Some(denied)),
            },
        }
        Ok(None)
    }

    /// Shows on one line why no table was walked.
    fn show_denied(&mut self, name: &str, denied: NoWalk, view: View<'_>) -> io::Result<()> {
        write!(self.out, "{name}: ")?;
        match denied {
            NoWalk::Rejected(rejection) => {
                self.show_answer(verdict::Plain::unsealed(rejection), view)
            }
            NoWalk::Refused(refusal) if self.options.plain => {
                writeln!(self.out, "walk {} 0 0 0 0", refusal.number())
            }
            NoWalk::Refused(refusal) => {
                let (number, words) = (refusal.number(), refusal_words(refusal));
                writeln!(self.out, "walk refused {number}: {words}")
            }
        }
    }

    /// Puts each record of an image into a new draft, up to the first that it refuses, seals it and shows the values
    /// of a table by a reading, or why there are none; whether there are.
    pub fn walk<D: AnyDraft + Drop>(
        &mut self,
        table: TableName,
        reading: ReadingName,
        name: &str,
        image: &[u8],
        mut draft: D,
    ) -> io::Result<bool> {
        if !self.put_all(Question::Seal, name, image, &mut draft)? {
            return Ok(false);
        }
        match self.show_table(table, reading, &draft)? {
            None => Ok(true),
            Some(denied) => {
                self.show_denied(name, denied, draft.view())?;
                Ok(false)
            }
        }
    }
}
