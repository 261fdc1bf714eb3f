//! Small drafts.
ghost use Rattle.promises.specs.Samples.{SmallDrafts, SizedRow, RingHasNoRow};

/// How many small drafts the check and sealing answer as the specification `Samples` writes out, record by record.
// It is there for what it promises: a contract makes the check ask for those theorems.
pub fn small_drafts() -> u8
    ensures drafts { SmallDrafts }
    ensures row { SizedRow }
    ensures ring { RingHasNoRow }
{
    13
}
