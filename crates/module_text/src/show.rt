//! A record in words.
use draft::counts::Counts;
use ir::fields::{Cases, Field, Word};
use ir::kinds::Kind;
use module_row::rows::RowItem;
use names::cases::{case_name, word_names};
use names::kinds::field_names;
use records::body::{Body, Placed, Words};
use std::fmt;
use std::fmt::Display;

/// What a word holds.
#[derive(Clone, Copy)]
struct Content {
    word: Word,
    number: u32,
}

impl Display for Content {
    fn fmt<W: fmt::Write>(&self, f: &mut fmt::Formatter<W>) -> fmt::Result {
        match (self.word, self.word.handle(self.number)) {
            (_, Some(handle)) => write!(f, "{handle}"),
            (Word::Handle(_) | Word::Optional(_), None) => write!(f, "absent"),
            (Word::Unused, None) => write!(f, "unused"),
            (_, None) => write!(f, "{}", self.number),
        }
    }
}

/// A case by its name, with the words that it uses.
#[derive(Clone, Copy)]
struct Case<'a> {
    cases: Cases,
    byte: u8,
    words: Option<Words<'a>>,
}

impl Case<'_> {
    /// The words by name, in brackets where there are any.
    fn fmt_words<W: fmt::Write>(&self, words: Words<'_>, f: &mut fmt::Formatter<W>) -> fmt::Result {
        let names = word_names(self.cases, self.byte);
        if names.is_empty() {
            return Ok(());
        }
        write!(f, "(")?;
        for (i, (name, (word, number))) in names.iter().zip(words).enumerate() {
            let separator = if i > 0 { ", " } else { "" };
            let content = Content { word, number };
            write!(f, "{separator}{name}: {content}")?;
        }
        write!(f, ")")
    }
}

impl Display for Case<'_> {
    fn fmt<W: fmt::Write>(&self, f: &mut fmt::Formatter<W>) -> fmt::Result {
        match (case_name(self.cases, self.byte), self.words) {
            (Some(name), Some(words)) => {
                write!(f, "{name}")?;
                self.fmt_words(words, f)
            }
            _ => write!(f, "case {}", self.byte),
        }
    }
}

/// What a field holds.
#[derive(Clone, Copy)]
struct Value<'a>(Placed<'a>);

impl Display for Value<'_> {
    fn fmt<W: fmt::Write>(&self, f: &mut fmt::Formatter<W>) -> fmt::Result {
        let Value(placed) = self;
        match (placed.field, placed.bytes, placed.words()) {
            (Field::Case(cases), [byte, ..], words) => {
                let (cases, byte) = (*cases, *byte);
                write!(f, "{}", Case { cases, byte, words })
            }
            (_, _, Some(mut words)) => match words.next() {
                Some((word, number)) => write!(f, "{}", Content { word, number }),
                None => Ok(()),
            },
            (_, _, None) => Ok(()),
        }
    }
}

/// The fields of a body by name, each on a line of its own.
#[derive(Clone, Copy)]
pub struct Fields<'a> {
    pub kind: Kind,
    pub body: Body<'a>,
}

impl Display for Fields<'_> {
    fn fmt<W: fmt::Write>(&self, f: &mut fmt::Formatter<W>) -> fmt::Result {
        for (placed, name) in self.body.zip(field_names(self.kind)) {
            let value = Value(placed);
            writeln!(f, "  {name}: {value}")?;
        }
        Ok(())
    }
}

/// How many items each table has, and how much memory is used.
#[derive(Clone, Copy)]
pub struct Totals(pub Counts);

impl Display for Totals {
    fn fmt<W: fmt::Write>(&self, f: &mut fmt::Formatter<W>) -> fmt::Result {
        let Counts {
            lengths,
            kept,
            used,
            ..
        } = self.0;
        writeln!(
            f,
            "tables: types {}, constants {}, overrides {}",
            lengths.types, lengths.constants, lengths.overrides
        )?;
        writeln!(
            f,
            "tables: global variables {}, filters {}, expressions {}",
            lengths.globals, lengths.filters, lengths.expressions
        )?;
        writeln!(
            f,
            "tables: functions {}, entry points {}",
            lengths.functions, lengths.entries
        )?;
        writeln!(f, "kept: {kept} records in {used} bytes and {kept} slots")
    }
}

/// An item of a row, by its table and its number.
#[derive(Clone, Copy)]
pub struct Numbered(pub RowItem);

impl Display for Numbered {
    fn fmt<W: fmt::Write>(&self, f: &mut fmt::Formatter<W>) -> fmt::Result {
        match self.0 {
            RowItem::Type(number) => write!(f, "type:{number}"),
            RowItem::Override(number) => write!(f, "override:{number}"),
            RowItem::Constant(number) => write!(f, "constant:{number}"),
            RowItem::Expression(number) => write!(f, "expression:{number}"),
        }
    }
}
