//! Reads images, one in hexadecimal on each line, puts the records of each into a new draft, and prints what
//! the check and what sealing answers, by five numbers each; both are the number of a refused put and four zeros.
#![tactic(auto)]

use hexadecimal::decode;
use owned::denial::Denial;
use owned::owned::OwnedDraft;
use records::image::Records;
use rules::faults::Rejection;
use seal::seal::seal;
use std::alloc::{AllocError, Global};
use std::fmt::Display;
use std::io::{BufRead, BufReader, BufWriter, Write};
use std::{fmt, io};
use valid::check::check;

/// The numbers of a refusal: all 0 where there is none.
// Five numbers and no error: they are printed, and a refusal of put has a number as well.
#[derive(Clone, Copy, Default)]
struct Numbers {
    number: u8,
    kind: u8,
    first: usize,
    second: usize,
    place: usize,
}

impl From<Rejection> for Numbers {
    fn from(rejection: Rejection) -> Numbers {
        Numbers {
            number: rejection.number(),
            kind: rejection.kind(),
            first: rejection.first(),
            second: rejection.second(),
            place: rejection.place(),
        }
    }
}

impl Display for Numbers {
    fn fmt<W: fmt::Write>(&self, f: &mut fmt::Formatter<W>) -> fmt::Result {
        let Numbers {
            number,
            kind,
            first,
            second,
            place,
        } = *self;
        write!(f, "{number} {kind} {first} {second} {place}")
    }
}

/// What the check and what sealing answers for an image.
#[derive(Clone, Copy)]
struct Answers {
    check: Numbers,
    seal: Numbers,
}

impl Display for Answers {
    fn fmt<W: fmt::Write>(&self, f: &mut fmt::Formatter<W>) -> fmt::Result {
        write!(f, "{} {}", self.check, self.seal)
    }
}

/// What is answered for an image.
fn answer(heap: Global, image: &[u8]) -> Result<Answers, AllocError> {
    let mut draft = OwnedDraft::new(heap);
    for record in Records::new(image) {
        match draft.put(record.bytes) {
            Ok(_) => {}
            Err(Denial::NoMemory(error)) => return Err(error),
            Err(Denial::Refused(refusal)) => {
                let numbers = Numbers {
                    number: refusal.number(),
                    ..Numbers::default()
                };
                return Ok(Answers {
                    check: numbers,
                    seal: numbers,
                });
            }
        }
    }
    let (counts, bytes, slots) = draft.parts();
    Ok(Answers {
        check: check(draft.view()).map_or_else(Numbers::from, |()| Numbers::default()),
        seal: seal(counts, bytes, slots).map_or_else(Numbers::from, |_| Numbers::default()),
    })
}

fn main(rt: HostRuntime) -> io::Result<()> {
    let heap = rt.alloc();
    let mut out = BufWriter::new(heap, rt.stdout())?;
    for line in BufReader::new(heap, rt.stdin())?.lines(heap) {
        let line = line?;
        let image = decode(heap, line.as_str())?;
        writeln!(out, "{}", answer(heap, image.as_slice())?)?;
    }
    out.flush()
}
