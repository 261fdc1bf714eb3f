//! Reads images, one in hexadecimal on each line, and prints what the library answers for each: of the check
//! the number of the refusal, the kind of fault and its two numbers, and of sealing these and the position.
#![tactic(auto)]

use hexadecimal::decode;
use images::fixed::ask;
use images::question::Question;
use images::verdict::Verdict;
use std::io;
use std::io::{BufRead, BufReader, BufWriter, Write};

fn main(rt: HostRuntime) -> io::Result<()> {
    let heap = rt.alloc();
    let mut out = BufWriter::new(heap, rt.stdout())?;
    for line in BufReader::new(heap, rt.stdin())?.lines(heap) {
        let line = line?;
        let image = decode(heap, line.as_str())?;
        // The position is left out: naga has none.
        let Verdict {
            number,
            kind,
            first,
            second,
            ..
        } = ask(Question::Check, image.as_slice());
        write!(out, "check {number} {kind} {first} {second} ")?;
        let Verdict {
            number,
            kind,
            first,
            second,
            position,
        } = ask(Question::Seal, image.as_slice());
        writeln!(out, "seal {number} {kind} {first} {second} {position}")?;
    }
    out.flush()
}
