//! What a command line asks for.
#![tactic(auto)]

ghost use Rattle.std.specs.Prelude.{◌≡◌, Some, string_bytes};
ghost use Rattle.command.specs.Command.{word_of, limit_given, option_of, command_of, next_of, finished, parsed, misuse_text};
ghost use Rattle.command.specs.Numbers.{digit_more, number_in, short_in};
ghost use Rattle.command.specs.Named.{body_of, table_of, reading_of, table_given, reading_given};

use std::error::Error;
use std::fmt;
use std::fmt::Display;

/// What a word behind the command is.
#[derive(Clone, Copy, PartialEq, Eq, Debug)]
pub enum Word {
    Plain,
    KeepGoing,
    /// `--bytes`, whose number is the next word.
    Bytes,
    /// `--slots`, whose number is the next word.
    Slots,
    Help,
    Version,
    /// `-`
    StandardInput,
    File,
    /// It begins with `-` and is none of the above.
    Unknown,
}

/// A table that is walked; of functions and entry points, the expressions of the one with a number.
#[derive(Clone, Copy, PartialEq, Eq, Debug)]
pub enum TableName {
    Types,
    Filters,
    Functions,
    Globals,
    Function(u32),
    EntryPoint(u32),
}

/// The reading that a table is walked by.
#[derive(Clone, Copy, PartialEq, Eq, Debug)]
pub enum ReadingName {
    Depth,
    Steady,
}

/// What is done with the inputs.
#[derive(Clone, Copy, PartialEq, Eq, Debug)]
pub enum Command {
    /// Each record is reported.
    Report,
    /// Only what the check answers is reported.
    Check,
    /// Only whether it is sealed is reported.
    Seal,
    /// It is sealed, and one table is walked.
    Walk(TableName, ReadingName),
}

/// How it is done.
#[derive(Clone, Copy, PartialEq, Eq, Default, Debug)]
pub struct Options {
    pub plain: bool,
    /// Whether to go on behind a refused record.
    pub keep_going: bool,
    /// How much memory to lend; else as much as the image needs.
    pub bytes: Option<usize>,
    pub slots: Option<usize>,
    /// Whether an input is named; else standard input is read.
    pub named: bool,
}

/// What a command line asks for.
#[derive(Clone, Copy, PartialEq, Eq, Debug)]
pub enum Request {
    Read(Command, Options),
    Help,
    Version,
}

/// What is wrong with a command line.
#[derive(Clone, Copy, PartialEq, Eq, Debug)]
pub enum Misuse {
    NoCommand,
    UnknownCommand,
    UnknownOption,
    /// An option lacks its number.
    NoNumber,
    /// `walk` lacks its table.
    NoTable,
    /// `walk` lacks its reading.
    NoReading,
}

/// What is wrong, in words.
impl Display for Misuse {
    ghost output = { λ m. Some (misuse_text m) };

    fn fmt<W: fmt::Write>(&self, f: &mut fmt::Formatter<W>) -> fmt::Result {
        f.write_str(match self {
            Misuse::NoCommand => "no command",
            Misuse::UnknownCommand => "no such command",
            Misuse::UnknownOption => "no such option",
            Misuse::NoNumber => "--bytes and --slots take a number",
            Misuse::NoTable => {
                "walk takes types, filters, functions, globals, function:N or entry:N"
            }
            Misuse::NoReading => "walk takes depth or steady behind the table",
        })
    }
}

impl Error for Misuse {}

/// A word behind the command.
impl From<&str> for Word {
    ghost from_gives = { λ text word. word ≡ word_of text.now };

    fn from(text: &str) -> Word {
        match text {
            "--plain" => Word::Plain,
            "--keep-going" => Word::KeepGoing,
            "--bytes" => Word::Bytes,
            "--slots" => Word::Slots,
            "--help" | "-h" => Word::Help,
            "--version" => Word::Version,
            "-" => Word::StandardInput,
            _ if text.starts_with('-') => Word::Unknown,
            _ => Word::File,
        }
    }
}

/// Which memory an option limits.
#[derive(Clone, Copy)]
enum Limit {
    Bytes,
    Slots,
}

/// What the words so far come to.
#[derive(Clone, Copy)]
enum Progress {
    /// There is none.
    Empty,
    /// `walk` came, whose table is next.
    AwaitingTable,
    /// The table came, whose reading is next.
    AwaitingReading(TableName),
    Reading(Command, Options),
    /// An option came whose number is next.
    Awaiting(Limit, Command, Options),
    /// A word decided, whatever comes behind it.
    // Carried through the fold, which goes on and changes nothing more: by `try_fold`, `parse` is longer, and
    // that an outcome stands wants a proof of its own.
    Settled(Result<Request, Misuse>),
}

// By text and not by `Word`, whose cases are words behind a command.
fn take_command(text: &str) -> Progress
    ensures { result ≡ command_of text.now }
{
    match text {
        "report" => Progress::Reading(Command::Report, Options::default()),
        "check" => Progress::Reading(Command::Check, Options::default()),
        "seal" => Progress::Reading(Command::Seal, Options::default()),
        "walk" => Progress::AwaitingTable,
        "--help" | "-h" => Progress::Settled(Ok(Request::Help)),
        "--version" => Progress::Settled(Ok(Request::Version)),
        _ => Progress::Settled(Err(Misuse::UnknownCommand)),
    }
}

fn take_option(word: Word, command: Command, options: Options) -> Progress
    ensures { result ≡ option_of word command options }
{
    match word {
        Word::Plain => Progress::Reading(
            command,
            Options {
                plain: true,
                ..options
            },
        ),
        Word::KeepGoing => Progress::Reading(
            command,
            Options {
                keep_going: true,
                ..options
            },
        ),
        Word::Bytes => Progress::Awaiting(Limit::Bytes, command, options),
        Word::Slots => Progress::Awaiting(Limit::Slots, command, options),
        Word::Help => Progress::Settled(Ok(Request::Help)),
        Word::Version => Progress::Settled(Ok(Request::Version)),
        Word::StandardInput | Word::File => Progress::Reading(
            command,
            Options {
                named: true,
                ..options
            },
        ),
        Word::Unknown => Progress::Settled(Err(Misuse::UnknownOption)),
    }
}

/// The number, if it is one, with one digit more.
fn add_digit(number: Option<usize>, digit: u8) -> Option<usize>
    ensures { result ≡ digit_more number digit }
{
    match digit {
        b'0'..=b'9' => number?
            .checked_mul(10)?
            .checked_add(usize::from(digit - b'0')),
        _ => None,
    }
}

/// The number that decimal digits write.
// Not by `parse`, which takes a `+` in front: the number of an option has none.
fn read_number(digits: &[u8]) -> Option<usize>
    ensures { result ≡ number_in digits.now }
{
    if digits.is_empty() {
        return None;
    }
    digits
        .iter()
        .fold(Some(0), |number, digit| add_digit(number, *digit))
}

/// The number that decimal digits write, if it is below 2^32.
fn read_short(digits: &[u8]) -> Option<u32>
    ensures { result ≡ short_in digits.now }
{
    u32::try_from(read_number(digits)?).ok()
}

/// The function or entry point that a word names.
fn read_body(word: &[u8]) -> Option<TableName>
    ensures { result ≡ body_of word.now }
{
    if let Some(digits) = word.strip_prefix(b"function:") {
        return Some(TableName::Function(read_short(digits)?));
    }
    let digits = word.strip_prefix(b"entry:")?;
    Some(TableName::EntryPoint(read_short(digits)?))
}

/// The table that a word names.
fn read_table(text: &str) -> Option<TableName>
    ensures { result ≡ table_of text.now }
{
    match text {
        "types" => Some(TableName::Types),
        "filters" => Some(TableName::Filters),
        "functions" => Some(TableName::Functions),
        "globals" => Some(TableName::Globals),
        _ => read_body(text.as_bytes()),
    }
}

/// The reading that a word names.
fn read_reading(text: &str) -> Option<ReadingName>
    ensures { result ≡ reading_of text.now }
{
    match text {
        "depth" => Some(ReadingName::Depth),
        "steady" => Some(ReadingName::Steady),
        _ => None,
    }
}

/// The word behind `walk`.
fn take_table(table: Option<TableName>) -> Progress
    ensures { result ≡ table_given table }
{
    match table {
        Some(table) => Progress::AwaitingReading(table),
        None => Progress::Settled(Err(Misuse::NoTable)),
    }
}

/// The word behind the table.
fn take_reading(table: TableName, reading: Option<ReadingName>) -> Progress
    ensures { result ≡ reading_given table reading }
{
    match reading {
        Some(reading) => Progress::Reading(Command::Walk(table, reading), Options::default()),
        None => Progress::Settled(Err(Misuse::NoReading)),
    }
}

/// The word behind an option that takes a number.
fn take_limit(limit: Limit, number: Option<usize>, command: Command, options: Options) -> Progress
    ensures { result ≡ limit_given limit number command options }
{
    match (limit, number) {
        (_, None) => Progress::Settled(Err(Misuse::NoNumber)),
        (Limit::Bytes, bytes) => Progress::Reading(command, Options { bytes, ..options }),
        (Limit::Slots, slots) => Progress::Reading(command, Options { slots, ..options }),
    }
}

impl Progress {
    /// One word more.
    fn next(self, text: &str) -> Progress
        ensures { result ≡ next_of self text.now }
    {
        match self {
            Progress::Empty => take_command(text),
            Progress::AwaitingTable => take_table(read_table(text)),
            Progress::AwaitingReading(table) => take_reading(table, read_reading(text)),
            Progress::Reading(command, options) => take_option(Word::from(text), command, options),
            Progress::Awaiting(limit, command, options) => {
                take_limit(limit, read_number(text.as_bytes()), command, options)
            }
            Progress::Settled(outcome) => Progress::Settled(outcome),
        }
    }

    /// What the words come to where no more follow.
    fn finish(self) -> Result<Request, Misuse>
        ensures { result ≡ finished self }
    {
        match self {
            Progress::Empty => Err(Misuse::NoCommand),
            Progress::AwaitingTable => Err(Misuse::NoTable),
            Progress::AwaitingReading(_) => Err(Misuse::NoReading),
            Progress::Reading(command, options) => Ok(Request::Read(command, options)),
            Progress::Awaiting(..) => Err(Misuse::NoNumber),
            Progress::Settled(outcome) => outcome,
        }
    }
}

/// What a command line, the program's own name aside, asks for.
pub fn parse(words: &[String]) -> Result<Request, Misuse>
    ensures { result ≡ parsed string_bytes words.now }
{
    words
        .iter()
        .fold(
            Progress::Empty,
            |progress, word| progress.next(word.as_str()),
        )
        .finish()
}

#[cfg(test)]
mod tests {
    use super::*;
    use std::alloc::{AllocError, Global};
    use std::test::Fail;

    /// What a line, cut at white space, asks for.
    fn parsed(heap: Global, line: &str) -> Result<Result<Request, Misuse>, AllocError> {
        let mut words = Vec::new(heap);
        for word in line.split_whitespace() {
            words.push(String::from_str(heap, word)?)?;
        }
        Ok(parse(words.as_slice()))
    }

    /// The options of a report on a named input.
    fn named_input() -> Options {
        Options {
            named: true,
            ..Options::default()
        }
    }

    #[test]
    fn commands(rt: HostRuntime) -> Result<(), Fail> {
        let heap = rt.alloc();
        let named = named_input();
        assert_eq!(rt; parsed(heap, "")?, Err(Misuse::NoCommand));
        assert_eq!(rt; parsed(heap, "reprt a")?, Err(Misuse::UnknownCommand));
        assert_eq!(rt; parsed(heap, "--help")?, Ok(Request::Help));
        assert_eq!(rt; parsed(heap, "-h report")?, Ok(Request::Help));
        assert_eq!(rt; parsed(heap, "--version")?, Ok(Request::Version));
        assert_eq!(rt;
            parsed(heap, "report")?,
            Ok(Request::Read(Command::Report, Options::default()))
        );
        assert_eq!(rt;
            parsed(heap, "report a -")?,
            Ok(Request::Read(Command::Report, named))
        );
        assert_eq!(rt;
            parsed(heap, "report -")?,
            Ok(Request::Read(Command::Report, named))
        );
        assert_eq!(rt;
            parsed(heap, "check a")?,
            Ok(Request::Read(Command::Check, named))
        );
        assert_eq!(rt;
            parsed(heap, "seal a")?,
            Ok(Request::Read(Command::Seal, named))
        );
        assert_eq!(rt; parsed(heap, "check --bytes")?, Err(Misuse::NoNumber));
        Ok(())
    }

    #[test]
    fn options(rt: HostRuntime) -> Result<(), Fail> {
        let heap = rt.alloc();
        let named = named_input();
        let plain = Options {
            plain: true,
            ..named
        };
        let keep_going = Options {
            keep_going: true,
            ..named
        };
        let ten_bytes = Options {
            bytes: Some(10),
            ..named
        };
        let seven_slots = Options {
            slots: Some(7),
            ..Options::default()
        };
        assert_eq!(rt;
            parsed(heap, "report a --plain b")?,
            Ok(Request::Read(Command::Report, plain))
        );
        assert_eq!(rt;
            parsed(heap, "report --keep-going a")?,
            Ok(Request::Read(Command::Report, keep_going))
        );
        assert_eq!(rt;
            parsed(heap, "report --bytes 10 a")?,
            Ok(Request::Read(Command::Report, ten_bytes))
        );
        assert_eq!(rt;
            parsed(heap, "report --slots 007")?,
            Ok(Request::Read(Command::Report, seven_slots))
        );
        assert_eq!(rt; parsed(heap, "report --bytes")?, Err(Misuse::NoNumber));
        assert_eq!(rt; parsed(heap, "report --bytes 1x a")?, Err(Misuse::NoNumber));
        assert_eq!(rt;
            parsed(heap, "report --slots 18446744073709551616")?,
            Err(Misuse::NoNumber)
        );
        assert_eq!(rt;
            parsed(heap, "report a --unknown --help")?,
            Err(Misuse::UnknownOption)
        );
        assert_eq!(rt;
            parsed(heap, "report a --help --unknown")?,
            Ok(Request::Help)
        );
        Ok(())
    }

    /// A walk of this table by this reading, on a named input.
    fn walk(table: TableName, reading: ReadingName) -> Result<Request, Misuse> {
        Ok(Request::Read(Command::Walk(table, reading), named_input()))
    }

    #[test]
    fn walks(rt: HostRuntime) -> Result<(), Fail> {
        let heap = rt.alloc();
        let plain = Options {
            plain: true,
            ..named_input()
        };
        assert_eq!(rt;
            parsed(heap, "walk types depth a")?,
            walk(TableName::Types, ReadingName::Depth)
        );
        assert_eq!(rt;
            parsed(heap, "walk filters steady a")?,
            walk(TableName::Filters, ReadingName::Steady)
        );
        assert_eq!(rt;
            parsed(heap, "walk functions depth a")?,
            walk(TableName::Functions, ReadingName::Depth)
        );
        assert_eq!(rt;
            parsed(heap, "walk globals steady a")?,
            walk(TableName::Globals, ReadingName::Steady)
        );
        assert_eq!(rt;
            parsed(heap, "walk function:0 depth a")?,
            walk(TableName::Function(0), ReadingName::Depth)
        );
        assert_eq!(rt;
            parsed(heap, "walk entry:4294967295 steady a --plain")?,
            Ok(Request::Read(
                Command::Walk(TableName::EntryPoint(4_294_967_295), ReadingName::Steady),
                plain
            ))
        );
        Ok(())
    }

    #[test]
    fn no_walks(rt: HostRuntime) -> Result<(), Fail> {
        let heap = rt.alloc();
        for line in [
            "walk",
            "walk type depth",
            "walk --help depth",
            "walk function depth",
            "walk function: depth",
            "walk function:+1 depth",
            "walk function:-1 depth",
            "walk function:1x depth",
            "walk function:4294967296 depth",
            "walk entry: depth",
            "walk entry:0x1 depth",
            "walk entry:18446744073709551617 depth",
            "walk Types depth",
        ] {
            assert_eq!(rt; parsed(heap, line)?, Err(Misuse::NoTable), "{line}");
        }
        for line in [
            "walk types",
            "walk entry:1 deep a",
            "walk types --plain depth a",
        ] {
            assert_eq!(rt; parsed(heap, line)?, Err(Misuse::NoReading), "{line}");
        }
        Ok(())
    }
}
