//! What the check and sealing answer to a draft.
ghost use Rattle.std.specs.Prelude.{◌≡◌, is_ok};
ghost use Rattle.std.specs.Result.{result_err};
ghost use Rattle.draft.specs.State.{state};
ghost use Rattle.images.specs.Answer.{asked};
ghost use Rattle.module_text.specs.Words.{question_word};

use any_draft::drafts::AnyDraft;
use arena::view::View;
use images::question::Question;
use records::image::Record;
use rules::faults::{Fault, FaultKind, Rejection, Rule};
use seal::sealed::Sealed;
use std::fmt;
use std::fmt::Display;

/// The word of a question.
pub fn word(question: Question) -> &'static str
    ensures { result.now ≡ question_word question }
{
    match question {
        Question::Check => "check",
        Question::Seal => "seal",
    }
}

/// The answer on one line, by numbers.
#[derive(Clone, Copy)]
pub struct Plain {
    question: Question,
    answer: Result<(), Rejection>,
}

impl Plain {
    /// That of a draft.
    pub fn of<D: AnyDraft>(question: Question, draft: &D) -> Plain
        ensures named { result.question ≡ question }
        ensures answer { result_err result.answer ≡ asked question (state (D.kept draft.now)) }
    {
        Plain {
            question,
            answer: draft.ask(question),
        }
    }

    /// That of sealing, where it is known.
    pub fn sealed(sealed: &Result<Sealed<'_>, Rejection>) -> Plain
        ensures named { result.question ≡ Question.Seal }
        ensures answer { result_err result.answer ≡ result_err sealed.now }
    {
        let answer = match sealed {
            Ok(_) => Ok(()),
            Err(rejection) => Err(*rejection),
        };
        Plain {
            question: Question::Seal,
            answer,
        }
    }

    /// That of sealing, where it refuses.
    pub fn unsealed(rejection: Rejection) -> Plain
        ensures named { result.question ≡ Question.Seal }
        ensures answer { result.answer ≡ Err rejection }
    {
        Plain {
            question: Question::Seal,
            answer: Err(rejection),
        }
    }

    /// Whether the draft passes.
    pub fn is_passed(self) -> bool
        ensures { result ≡ is_ok self.answer }
    {
        self.answer.is_ok()
    }
}

impl Display for Plain {
    fn fmt<W: fmt::Write>(&self, f: &mut fmt::Formatter<W>) -> fmt::Result {
        let question = word(self.question);
        match self.answer {
            Ok(()) => write!(f, "{question} passed"),
            Err(rejection) => {
                let number = rejection.number();
                let kind = rejection.kind();
                let first = rejection.first();
                let second = rejection.second();
                let place = rejection.place();
                write!(f, "{question} {number} {kind} {first} {second} {place}")
            }
        }
    }
}

/// What the numbers of a fault count.
#[derive(Clone, Copy)]
struct Counted(FaultKind);

impl Display for Counted {
    fn fmt<W: fmt::Write>(&self, f: &mut fmt::Formatter<W>) -> fmt::Result {
        f.write_str(match self.0 {
            FaultKind::Type => "type",
            FaultKind::Constant => "constant",
            FaultKind::Override => "override",
            FaultKind::GlobalVariable => "global variable",
            FaultKind::LocalVariable => "local variable",
            FaultKind::Expression => "expression",
            FaultKind::Function => "function",
            FaultKind::Argument => "argument",
            FaultKind::DiagnosticFilterNode => "filter",
        })
    }
}

/// A failed test, and the record under test.
#[derive(Clone, Copy)]
struct Failed<'a> {
    fault: Fault,
    record: Option<&'a [u8]>,
}

impl Display for Failed<'_> {
    fn fmt<W: fmt::Write>(&self, f: &mut fmt::Formatter<W>) -> fmt::Result {
        let Fault {
            rule,
            kind,
            first,
            second,
            place,
        } = self.fault;
        let counted = Counted(kind);
        match rule {
            Rule::Inside | Rule::SealedInside => write!(f, "{counted} {first} is not inside")?,
            Rule::Earlier | Rule::SealedEarlier => {
                write!(f, "{counted} {second} is not earlier than {first}")?
            }
            Rule::Range => write!(f, "the range {first}..{second} is not inside")?,
            Rule::Placed => write!(f, "{counted} {first} may not stand there")?,
        }
        write!(f, ", kept record {place}")?;
        match self.record.map(|bytes| Record { bytes }.parts()) {
            Some(Ok((kind, _))) => write!(f, ", {kind}"),
            _ => Ok(()),
        }
    }
}

/// The answer in words.
#[derive(Clone, Copy)]
pub struct Full<'a> {
    answer: Plain,
    view: View<'a>,
}

impl<'a> Full<'a> {
    /// Those of an answer to the draft that is viewed.
    pub fn of(answer: Plain, view: View<'a>) -> Full<'a>
        ensures answer { result.answer ≡ answer }
        ensures view { result.view ≡ view.entry }
    {
        Full { answer, view }
    }
}

impl Display for Full<'_> {
    fn fmt<W: fmt::Write>(&self, f: &mut fmt::Formatter<W>) -> fmt::Result {
        let Plain { question, answer } = self.answer;
        let question = word(question);
        match answer {
            Ok(()) => write!(f, "{question} passed"),
            Err(rejection) => {
                write!(f, "{question} refused {}: ", rejection.number())?;
                match rejection {
                    Rejection::Unfinished => f.write_str("a function is open or records wait"),
                    Rejection::Faulty(fault) => {
                        let record = self.view.record(fault.place);
                        write!(f, "{}", Failed { fault, record })
                    }
                }
            }
        }
    }
}
