//! The sink that lines go to.
ghost use Rattle.std.specs.Prelude.{◌≡◌, ◌≤◌, ℕ, Bool, false, List, Option, OnOk, OnErr};
ghost use Rattle.std.specs.Result.{is_err};
ghost use Rattle.vericon_edge.specs.Counts.{Rose};
ghost use Rattle.vericon_edge.specs.Written.{Grown, GrownByFront, WriteAnswers};

use crate::fault::Failed;

/// Takes bytes, one piece after another.
///
/// An object may tell the bytes that it took. It counts the writes that failed; the count never falls.
/// Once a write has failed nothing more is written.
pub trait Sink {
    /// The bytes written, where they are told.
    ghost written: { Self → Option (List ℕ) };

    /// How often a write has failed.
    ghost faults: { Self → ℕ };

    /// Whether a write has failed.
    ghost has_failed: { Self → Bool };

    /// Appends a front of the piece to the bytes written, and gives its length, which is 0 only where
    /// the piece is empty.
    ///
    /// Errors: `Failed`; nothing was written then.
    fn write(&mut self, piece: &[u8]) -> Result<usize, Failed>
        requires { has_failed self.old ≡ false }
        ensures answer { WriteAnswers (written self.old) (written self.new) piece.now (faults self.old) (faults self.new) result }
        ensures later { faults self.old ≤ faults self.new }
        ensures failed { has_failed self.new ≡ is_err result };
}

/// Writes all bytes of a piece, in as many calls as the sink wants.
///
/// Errors: `Failed`, where a call failed; a front of the piece was written then.
pub fn write_piece<S: Sink>(out: &mut S, piece: &[u8]) -> Result<(), Failed>
    requires { S.has_failed out.old ≡ false }
    ensures ok { OnOk result (Grown (S.written out.old) (S.written out.new) piece.now) }
    ensures steady { OnOk result (S.faults out.new ≡ S.faults out.old) }
    ensures err { OnErr result (GrownByFront (S.written out.old) (S.written out.new) piece.now) }
    ensures cause { OnErr result (Rose (S.faults out.old) (S.faults out.new)) }
    ensures later { S.faults out.old ≤ S.faults out.new }
    ensures failed { S.has_failed out.new ≡ is_err result }
{
    let mut done = 0;
    while done < piece.len() {
        done += out.write(&piece[done..])?;
    }
    Ok(())
}
