//! Why put refuses a record.
ghost use Rattle.std.specs.Prelude.{◌≡◌};
ghost use Rattle.draft.specs.declared.refusal.Refusal.TheVariants.{Flawed};
ghost use Rattle.draft.specs.Admitted.{refusal_number};

use records::judge::Flaw;
use std::fmt;
use std::fmt::Display;

/// In the order in which they are tested.
#[derive(Clone, Copy, PartialEq, Eq, Debug)]
pub enum Refusal {
    /// Refusals 1 to 3: it would be refused wherever it stood.
    Flawed(Flaw),
    /// It may not stand here.
    Misplaced,
    /// It would open a 65th bracket.
    TooDeep,
    /// There are too few bytes, no slot or no number left for it.
    Full,
}

impl Refusal {
    /// The number of the refusal.
    // No `From` for `u8` beside it: contracts and callers name `number`, and a conversion would be a second name for it.
    pub fn number(self) -> u8
        ensures { result ≡ refusal_number self }
    {
        match self {
            Refusal::Flawed(flaw) => flaw.number(),
            Refusal::Misplaced => 4,
            Refusal::TooDeep => 5,
            Refusal::Full => 6,
        }
    }
}

/// In words.
impl Display for Refusal {
    fn fmt<W: fmt::Write>(&self, f: &mut fmt::Formatter<W>) -> fmt::Result {
        f.write_str(match self {
            Refusal::Flawed(Flaw::NoSuchKind) => "no kind has this number",
            Refusal::Flawed(Flaw::WrongLength) => "not as long as its kind fixes",
            Refusal::Flawed(Flaw::BadField) => "a field holds what it may not",
            Refusal::Misplaced => "it may not stand here",
            Refusal::TooDeep => "64 brackets are open",
            Refusal::Full => "too few bytes, no slot or no number is left",
        })
    }
}

impl From<Flaw> for Refusal {
    ghost from_gives = { λ e r. r ≡ Flawed e };

    fn from(flaw: Flaw) -> Refusal {
        Refusal::Flawed(flaw)
    }
}
