//! Which byte strings are records.
ghost use Rattle.std.specs.Prelude.{◌≡◌, ℕ, ◌*◌, ◌≤◌, List, length, IfOk, Ok, Err, MatchResult, ◌==◌};
ghost use Rattle.ir.specs.Layout.{layout, size_of};
ghost use Rattle.records.specs.declared.judge.Flaw.TheVariants.{NoSuchKind};
ghost use Rattle.records.specs.Record.{flaw_number, parts_of, judged};
ghost use Rattle.records.specs.Left.{body_left, fields_of};

use crate::body::Body;
use crate::image::Record;
use ir::kinds::Kind;
use ir::numbers::UnknownKind;

/// Why a byte string is refused, whatever stands before it.
#[derive(Clone, Copy, PartialEq, Eq, Debug)]
pub enum Flaw {
    /// It is empty, or no kind has its first byte as number.
    NoSuchKind = 1,
    /// It is not as long as its kind fixes.
    WrongLength = 2,
    /// A field holds what it may not.
    BadField = 3,
}

impl From<UnknownKind> for Flaw {
    ghost from_gives = { λ _ r. r ≡ NoSuchKind };

    fn from(_unknown: UnknownKind) -> Flaw {
        Flaw::NoSuchKind
    }
}

impl Flaw {
    /// The number of the refusal.
    // No `From` for `u8` beside it: contracts and callers name `number`, and a conversion would be a second name for it.
    pub fn number(self) -> u8
        ensures { result ≡ flaw_number self }
    {
        self as u8
    }
}

/// Whether a body is as long as its kind fixes.
fn has_length(body: &[u8], kind: Kind) -> bool
    ensures { result ≡ (length body.now == size_of (layout kind)) }
{
    body.len() == kind.size()
}

impl<'a> Record<'a> {
    /// Its kind and its body, or why it is no record.
    pub fn parts(self) -> Result<(Kind, &'a [u8]), Flaw>
        ensures parts { MatchResult result (λ p. parts_of self.entry.bytes.now ≡ Ok (p.0, p.1.now)) (λ e. parts_of self.entry.bytes.now ≡ Err e) }
        ensures long { IfOk result (λ p. length p.1.now ≡ size_of (layout p.0)) }
    {
        let [byte, body @ ..] = self.bytes else {
            return Err(Flaw::NoSuchKind);
        };
        let kind = Kind::try_from(*byte)?;
        if !has_length(body, kind) {
            return Err(Flaw::WrongLength);
        }
        Ok((kind, body))
    }

    /// Its kind and the fields of its body, or why it is no record.
    pub fn body(self) -> Result<(Kind, Body<'a>), Flaw>
        ensures { MatchResult result (λ p. fields_of self.entry.bytes.now ≡ Ok (p.0, body_left p.1)) (λ e. fields_of self.entry.bytes.now ≡ Err e) }
    {
        let (kind, bytes) = self.parts()?;
        Ok((kind, Body::of(kind.layout(), bytes)))
    }

    /// Its kind, or why it is refused.
    pub fn judge(self) -> Result<Kind, Flaw>
        ensures { result ≡ judged self.entry.bytes.now }
    {
        let (kind, body) = self.body()?;
        if body.fits() {
            Ok(kind)
        } else {
            Err(Flaw::BadField)
        }
    }
}
