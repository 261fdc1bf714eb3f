//! Reads images of shader modules, and reports their records.
#![tactic(auto)]

mod report;
mod walking;

use crate::report::Reporter;
use any_draft::drafts::{AnyDraft, FixedDraft};
use command::{Command, Misuse, Options, Request, Word, parse};
use images::question::Question;
use owned::owned::OwnedDraft;
use records::image::Records;
use std::io::{BufWriter, Read, Write};
use std::process::ExitCode;
use std::{env, fs, io};

const HELP: &str = "modseal: reads images of shader modules

usage: modseal report [OPTION...] [FILE...]
       modseal check [OPTION...] [FILE...]
       modseal seal [OPTION...] [FILE...]
       modseal walk TABLE READING [OPTION...] [FILE...]
       modseal --help | -h | --version

report puts each record of each FILE, or of standard input where no FILE is named
or FILE is -, into a new draft, and prints its index from 0, its offset, its kind,
the number that it got and its fields, or the number of its refusal, which ends
the report of that image; at last how many items each table has, what each number
names, whether the module of what was kept passes the check and is sealed, and if it
is a row of its types, overrides, constants and global expressions, each after all
of these that its handles point to, and the values of each of its tables by both
readings, with how many items they have and how many operands were taken

check prints one line for each FILE, NAME: check passed, or why it is refused by the
draft or the check; the status is 1 where one is refused; seal does likewise, and
tests also what the check leaves out

walk seals each FILE and prints the values of one table by one reading, or why it is
refused; TABLE is types, filters, functions, globals, function:N or entry:N, READING
is depth or steady

--plain       one line a record: record INDEX KIND NUMBER, or
              record INDEX KIND refused NUMBER; at last check passed, or
              check NUMBER KIND FIRST SECOND POSITION, the same for seal, and
              row TABLE:NUMBER... and walk TABLE READING ITEMS TAKES VALUE...
              where the module is sealed
              (check, seal: NAME: check passed, or
              NAME: check NUMBER KIND FIRST SECOND POSITION;
              walk: walk TABLE READING ITEMS TAKES VALUE..., or
              NAME: walk NUMBER 0 0 0 0, or as seal)
--keep-going  report: go on behind a refused record
--bytes N     lend the draft N bytes, and
--slots N     N slots: as many as the image needs where this is not said";

fn read_input(rt: &HostRuntime) -> io::Result<Vec<u8>> {
    let mut image = Vec::new(rt.alloc());
    rt.stdin().read_to_end(&mut image)?;
    Ok(image)
}

/// How many words a command takes up; behind them stand options and inputs.
fn command_words(command: Command) -> usize {
    match command {
        Command::Report | Command::Check | Command::Seal => 1,
        Command::Walk(..) => 3,
    }
}

/// What is done with the inputs, on standard output.
#[derive(Clone, Copy)]
struct Inputs<'a> {
    rt: &'a HostRuntime,
    command: Command,
    options: Options,
}

impl Inputs<'_> {
    /// Reports, checks, seals or walks an image; whether it passes what is asked for.
    fn read_into<W: Write, D: AnyDraft + Drop>(
        &self,
        reporter: &mut Reporter<'_, W>,
        name: &str,
        image: &[u8],
        draft: D,
    ) -> io::Result<bool> {
        match self.command {
            Command::Report => {
                reporter.report(image, draft)?;
                Ok(true)
            }
            Command::Check => reporter.ask(Question::Check, name, image, draft),
            Command::Seal => reporter.ask(Question::Seal, name, image, draft),
            Command::Walk(table, reading) => reporter.walk(table, reading, name, image, draft),
        }
    }

    /// Reports, checks, seals or walks an image, in memory that grows unless an option fixes it; whether it passes
    /// what is asked for.
    fn read_image(&self, name: &str, image: &[u8]) -> io::Result<bool> {
        let heap = self.rt.alloc();
        let options = self.options;
        let mut out = BufWriter::new(heap, self.rt.stdout())?;
        if self.command == Command::Report && !options.plain {
            writeln!(out, "image {name}: {} bytes", image.len())?;
        }
        let mut reporter = Reporter {
            out: &mut out,
            heap,
            options,
        };
        let passed = match (options.bytes, options.slots) {
            (None, None) => self.read_into(&mut reporter, name, image, OwnedDraft::new(heap))?,
            (bytes, slots) => {
                let bytes = bytes.unwrap_or(image.len());
                let slots = slots.unwrap_or_else(|| Records::new(image).count());
                let draft = FixedDraft::new(heap, bytes, slots)?;
                self.read_into(&mut reporter, name, image, draft)?
            }
        };
        out.flush()?;
        Ok(passed)
    }

    /// Reports, checks, seals or walks one input; whether it could be read, and passes.
    // A `bool` and no error: what went wrong is written here, and the other inputs follow.
    fn take_input(&self, name: &str, word: Word) -> io::Result<bool> {
        let read = match word {
            Word::StandardInput => read_input(self.rt),
            _ => fs::read(self.rt, name),
        };
        match read {
            Ok(image) => self.read_image(name, image.as_slice()),
            Err(error) => {
                eprintln!(self.rt; "modseal: {name}: {error}")?;
                Ok(false)
            }
        }
    }

    /// Reports, checks, seals or walks every input that the words behind the command name; whether all could be
    /// read, and pass.
    // The words are read again for the names: the options are `Copy` and hold no text.
    fn take_all(&self, words: &[String]) -> io::Result<bool> {
        if !self.options.named {
            return self.take_input("-", Word::StandardInput);
        }
        let mut all = true;
        let mut words = words.iter().skip(command_words(self.command));
        while let Some(name) = words.next() {
            match Word::from(name.as_str()) {
                Word::Bytes | Word::Slots => {
                    let _number = words.next();
                }
                word @ (Word::File | Word::StandardInput) => {
                    all = self.take_input(name.as_str(), word)? && all;
                }
                _ => {}
            }
        }
        Ok(all)
    }
}

/// Says what is wrong with the command line.
fn complain(rt: &HostRuntime, words: &[String], misuse: Misuse) -> io::Result<()> {
    let wrong = match misuse {
        Misuse::UnknownCommand => words.first(),
        Misuse::UnknownOption => words
            .iter()
            .find(|word| Word::from(word.as_str()) == Word::Unknown),
        Misuse::NoTable => words.get(1),
        Misuse::NoReading => words.get(2),
        Misuse::NoCommand | Misuse::NoNumber => None,
    };
    match wrong {
        Some(word) => eprintln!(rt; "modseal: {word}: {misuse}")?,
        None => eprintln!(rt; "modseal: {misuse}")?,
    }
    eprintln!(rt; "try: modseal --help")
}

fn run(rt: &HostRuntime) -> io::Result<bool> {
    let mut args = env::args(rt)?;
    let _ = args.next();
    let words: Vec<String> = args.collect(rt.alloc())?;
    match parse(words.as_slice()) {
        Ok(Request::Read(command, options)) => Inputs {
            rt,
            command,
            options,
        }
        .take_all(words.as_slice()),
        Ok(Request::Help) => {
            println!(rt; "{HELP}")?;
            Ok(true)
        }
        Ok(Request::Version) => {
            println!(rt; "modseal 0.2.0")?;
            Ok(true)
        }
        Err(misuse) => {
            complain(rt, words.as_slice(), misuse)?;
            Ok(false)
        }
    }
}

fn main(rt: HostRuntime) -> ExitCode {
    match run(&rt) {
        Ok(true) => ExitCode::SUCCESS,
        Ok(false) => ExitCode::FAILURE,
        Err(error) => {
            let _ = eprintln!(rt; "modseal: {error}");
            ExitCode::FAILURE
        }
    }
}
