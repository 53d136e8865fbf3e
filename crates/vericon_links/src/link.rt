//! A stream of bytes both ways.
ghost use Rattle.std.specs.Prelude.{◌≡◌, ◌≤◌, ◌<◌, ℕ, Bool, true, List, Option, OnOk, OnErr, length};
ghost use Rattle.vericon_edge.specs.Counts.{Rose};
ghost use Rattle.vericon_edge.specs.Written.{Grown, GrownByFront, WriteAnswers};
ghost use Rattle.vericon_links.specs.Links.{ReadAnswers};

use vericon_edge::fault::Failed;

/// What a read gives.
#[derive(Clone, Copy, Debug, PartialEq, Eq)]
pub enum Got {
    /// So many bytes, at least one, at the front of the slice.
    Bytes(usize),
    /// No bytes: the other side gives no more.
    Closed,
}

/// A stream of bytes both ways, as a switch's connection.
///
/// An object may tell the bytes taken from it and those written to it. It counts its reads and its writes that failed; no count ever
/// falls. A read leaves all that is told of writes, and a write all that is told of reads.
pub trait Link {
    /// The bytes taken, where they are told.
    ghost taken: { Self → Option (List ℕ) };

    /// The bytes written, where they are told.
    ghost written: { Self → Option (List ℕ) };

    /// Whether a read has found that the other side gives no more.
    ghost closed: { Self → Bool };

    /// Whether this side has shut the link.
    ghost is_shut: { Self → Bool };

    /// How often a read has failed.
    ghost read_faults: { Self → ℕ };

    /// How often a write has failed.
    ghost write_faults: { Self → ℕ };

    /// Puts the next bytes at the front of the slice, at least one, as many as are there.
    ///
    /// Errors: `Failed`; nothing was taken then.
    fn read(&mut self, into: &mut [u8]) -> Result<Got, Failed>
        requires { 0 < length into.old }
        ensures answer { ReadAnswers (taken self.old) (taken self.new) into.new (closed self.old) (closed self.new) (read_faults self.old) (read_faults self.new) result }
        ensures later { read_faults self.old ≤ read_faults self.new }
        ensures written { written self.new ≡ written self.old }
        ensures write_faults { write_faults self.new ≡ write_faults self.old }
        ensures is_shut { is_shut self.new ≡ is_shut self.old };

    /// Writes a front of the piece, and gives its length, which is 0 only where the piece is empty.
    ///
    /// Errors: `Failed`; nothing was written then.
    fn write(&mut self, piece: &[u8]) -> Result<usize, Failed>
        ensures answer { WriteAnswers (written self.old) (written self.new) piece.now (write_faults self.old) (write_faults self.new) result }
        ensures later { write_faults self.old ≤ write_faults self.new }
        ensures taken { taken self.new ≡ taken self.old }
        ensures read_faults { read_faults self.new ≡ read_faults self.old }
        ensures closed { closed self.new ≡ closed self.old }
        ensures is_shut { is_shut self.new ≡ is_shut self.old };

    /// Ends the link from this side. No memory.
    fn shut(&mut self)
        ensures is_shut { is_shut self.new ≡ true }
        ensures taken { taken self.new ≡ taken self.old }
        ensures written { written self.new ≡ written self.old }
        ensures closed { closed self.new ≡ closed self.old }
        ensures read_faults { read_faults self.new ≡ read_faults self.old }
        ensures write_faults { write_faults self.new ≡ write_faults self.old };
}

/// Writes all bytes of a piece, in as many calls as the link wants.
///
/// Errors: `Failed`, where a call failed; a front of the piece was written then.
pub fn write_whole<K: Link>(link: &mut K, piece: &[u8]) -> Result<(), Failed>
    ensures ok { OnOk result (Grown (K.written link.old) (K.written link.new) piece.now) }
    ensures steady { OnOk result (K.write_faults link.new ≡ K.write_faults link.old) }
    ensures err { OnErr result (GrownByFront (K.written link.old) (K.written link.new) piece.now) }
    ensures cause { OnErr result (Rose (K.write_faults link.old) (K.write_faults link.new)) }
    ensures later { K.write_faults link.old ≤ K.write_faults link.new }
    ensures taken { K.taken link.new ≡ K.taken link.old }
    ensures read_faults { K.read_faults link.new ≡ K.read_faults link.old }
    ensures closed { K.closed link.new ≡ K.closed link.old }
    ensures is_shut { K.is_shut link.new ≡ K.is_shut link.old }
{
    let mut done = 0;
    while done < piece.len() {
        done += link.write(&piece[done..])?;
    }
    Ok(())
}
