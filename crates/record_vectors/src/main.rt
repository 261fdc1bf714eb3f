//! Reads byte strings, one in hexadecimal on each line, and prints for each the number of its
//! refusal, or 0, and its handles in order of declaration and in the order in which they are tested.
#![tactic(auto)]

use hexadecimal::decode;
use ir::handle::Handle;
use records::image::Record;
use std::fmt::Display;
use std::io::{BufRead, BufReader, BufWriter, Write};
use std::{fmt, io};

/// A handle by its table and number.
#[derive(Clone, Copy)]
struct Numbered(Handle);

impl Display for Numbered {
    fn fmt<W: fmt::Write>(&self, f: &mut fmt::Formatter<W>) -> fmt::Result {
        write!(f, " {}:{}", self.0.table(), self.0.index())
    }
}

/// What is answered for a byte string.
#[derive(Clone, Copy)]
struct Answer<'a>(Record<'a>);

impl Answer<'_> {
    /// Whether there is a handle behind the last.
    fn runs_over(&self) -> bool {
        let count = self.0.handle_count();
        self.0.handle(count).is_some() || self.0.tested_handle(count).is_some()
    }
}

impl Display for Answer<'_> {
    // By place, and not by the iterator `handles`: the lookups by place are what is compared.
    fn fmt<W: fmt::Write>(&self, f: &mut fmt::Formatter<W>) -> fmt::Result {
        let record = self.0;
        // 0 for none: it is printed where a refusal's number stands.
        let refusal = match record.judge() {
            Ok(_) => 0,
            Err(flaw) => flaw.number(),
        };
        let count = record.handle_count();
        write!(f, "{refusal} {count} declared")?;
        for handle in (0..count).filter_map(|place| record.handle(place)) {
            write!(f, "{}", Numbered(handle))?;
        }
        write!(f, " tested")?;
        for handle in (0..count).filter_map(|place| record.tested_handle(place)) {
            write!(f, "{}", Numbered(handle))?;
        }
        if self.runs_over() {
            write!(f, " and more")?;
        }
        Ok(())
    }
}

fn main(rt: HostRuntime) -> io::Result<()> {
    let heap = rt.alloc();
    let mut out = BufWriter::new(heap, rt.stdout())?;
    for line in BufReader::new(heap, rt.stdin())?.lines(heap) {
        let line = line?;
        let bytes = decode(heap, line.as_str())?;
        let record = Record {
            bytes: bytes.as_slice(),
        };
        writeln!(out, "{line} {}", Answer(record))?;
    }
    out.flush()
}
