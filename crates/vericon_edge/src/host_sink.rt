//! A stream of the host as a sink.
ghost use Rattle.std.specs.Prelude.{◌≡◌, ◌<◌, ◌≤◌, false, length, None, IfOk};

use crate::fault::Failed;
use crate::sink::Sink;
use std::io::{ErrorKind, Write};

/// A writer of the host, as its standard output. Nothing is told of what was written.
#[derive(Drop)]
pub struct HostSink<W: Write + Drop> {
    writer: W,
    faults: u64,
    has_failed: bool,
}

impl<W: Write + Drop> HostSink<W> {
    /// A sink that writes to this writer.
    pub fn new(writer: W) -> HostSink<W>
        ensures faults { result.faults ≡ 0 }
        ensures has_failed { result.has_failed ≡ false }
    {
        HostSink {
            writer,
            faults: 0,
            has_failed: false,
        }
    }
}

/// Writes once, and again where a signal interrupted it.
fn write_some<W: Write>(writer: &mut W, piece: &[u8]) -> Result<usize, Failed>
    ensures within { IfOk result (λ taken. taken ≤ length piece.now) }
    ensures some { IfOk result (λ taken. 0 < length piece.now → 0 < taken) }
{
    for _turn in 0..u64::MAX {
        match writer.write(piece) {
            Ok(taken) if taken > 0 || piece.is_empty() => return Ok(taken),
            Ok(_) => return Err(Failed),
            Err(error) if error.kind() == ErrorKind::Interrupted => {}
            Err(_) => return Err(Failed),
        }
    }
    Err(Failed)
}

impl<W: Write + Drop> Sink for HostSink<W> {
    ghost written = { λ _. None };

    ghost faults = { λ s. s.faults };

    ghost has_failed = { λ s. s.has_failed };

    fn write(&mut self, piece: &[u8]) -> Result<usize, Failed> {
        let answer = write_some(&mut self.writer, piece);
        if answer.is_err() {
            self.faults = self.faults.saturating_add(1);
            self.has_failed = true;
        }
        answer
    }
}

#[cfg(test)]
mod tests {
    use super::*;
    use crate::sink::write_piece;
    use std::test::Fail;
    use std::{env, fs, process};

    #[test]
    fn writes_a_line_to_a_file(rt: HostRuntime) -> Result<(), Fail> {
        let alloc = rt.alloc();
        let base = env::temp_dir(&rt)?;
        let number = process::id(rt.process());
        let path = format!(in alloc; "{}/vericon-sink-{number}", base.as_str())?;

        let mut sink = HostSink::new(fs::create(&rt, path.as_str())?);
        assert_eq!(rt; write_piece(&mut sink, b"yes level 0\n"), Ok(()));
        assert_eq!(rt; sink.write(b""), Ok(0));
        assert_eq!(rt;
            fs::read(&rt, path.as_str())?.as_slice(),
            b"yes level 0\n".as_slice()
        );

        let mut read_only = HostSink::new(fs::open(&rt, path.as_str())?);
        assert_eq!(rt; write_piece(&mut read_only, b"no"), Err(Failed));
        fs::remove_file(&rt, path.as_str())?;
        Ok(())
    }
}
