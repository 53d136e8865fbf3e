//! The files of the host.
ghost use Rattle.std.specs.Prelude.{◌≡◌, ◌≤◌, IfOk, IfErr, length, vec_len};
ghost use Rattle.vericon_edge.specs.declared.files.FileFault.TheVariants.{Missing, Failed};
ghost use Rattle.vericon_edge.specs.Told.{untold};

use crate::files::{FileFault, Files};
use std::alloc::Global;
use std::fs;
use std::io::{ErrorKind, Read};
use std::rt::Files as SystemFiles;

/// The files of the host, by their paths. Nothing is told of what they hold.
#[derive(Drop)]
pub struct HostFiles<R: SystemFiles + Drop> {
    rt: R,
    read_calls: u64,
    write_calls: u64,
    read_faults: u64,
    write_faults: u64,
}

impl<R: SystemFiles + Drop> HostFiles<R> {
    /// The files that this runtime reaches.
    pub fn new(rt: R) -> HostFiles<R>
        ensures read_calls { result.read_calls ≡ 0 }
        ensures write_calls { result.write_calls ≡ 0 }
        ensures read_faults { result.read_faults ≡ 0 }
        ensures write_faults { result.write_faults ≡ 0 }
    {
        HostFiles {
            rt,
            read_calls: 0,
            write_calls: 0,
            read_faults: 0,
            write_faults: 0,
        }
    }
}

/// Reads once, and again where a signal interrupted it.
fn read_some<F: Read>(file: &mut F, into: &mut [u8]) -> Result<usize, FileFault>
    ensures within { IfOk result (λ got. got ≤ length into.new) }
    ensures failed { IfErr result (λ fault. fault ≡ Failed) }
{
    for _turn in 0..u64::MAX {
        match file.read(into) {
            Ok(got) => return Ok(got),
            Err(error) if error.kind() == ErrorKind::Interrupted => {}
            Err(_) => return Err(FileFault::Failed),
        }
    }
    Err(FileFault::Failed)
}

/// The rest of a file, which is `most` bytes at most.
fn read_rest<F: Read>(alloc: Global, file: &mut F, most: usize) -> Result<Vec<u8>, FileFault>
    ensures within { IfOk result (λ bytes. vec_len bytes ≤ most) }
    ensures present { IfErr result (λ fault. fault ≡ Missing → ⊥) }
{
    let mut bytes = Vec::new(alloc);
    let mut part = [0u8; 4096];
    for _turn in 0..u64::MAX {
        let got = read_some(file, &mut part)?;
        if got == 0 {
            return Ok(bytes);
        }
        if got > most - bytes.len() {
            return Err(FileFault::TooLong);
        }
        if bytes.extend_from_slice(&part[..got]).is_err() {
            return Err(FileFault::Memory);
        }
    }
    Err(FileFault::Failed)
}

/// All that the host gives for a path, which is `most` bytes at most.
fn read_path<R: SystemFiles>(
    alloc: Global,
    rt: &R,
    path: &str,
    most: usize,
) -> Result<Vec<u8>, FileFault>
    ensures { IfOk result (λ bytes. vec_len bytes ≤ most) }
{
    match fs::open(rt, path) {
        Ok(mut file) => read_rest(alloc, &mut file, most),
        Err(error) if error.kind() == ErrorKind::NotFound => Err(FileFault::Missing),
        Err(_) => Err(FileFault::Failed),
    }
}

impl<R: SystemFiles + Drop> Files for HostFiles<R> {
    ghost told = { λ _ _. untold };

    ghost read_calls = { λ f. f.read_calls };

    ghost write_calls = { λ f. f.write_calls };

    ghost read_faults = { λ f. f.read_faults };

    ghost write_faults = { λ f. f.write_faults };

    fn read_all(&mut self, alloc: Global, name: &str, most: usize) -> Result<Vec<u8>, FileFault> {
        self.read_calls = self.read_calls.saturating_add(1);
        let answer = read_path(alloc, &self.rt, name, most);
        if matches!(&answer, Err(FileFault::Missing | FileFault::Failed)) {
            self.read_faults = self.read_faults.saturating_add(1);
        }
        answer
    }

    fn write_all(&mut self, _alloc: Global, name: &str, bytes: &[u8]) -> Result<(), FileFault> {
        self.write_calls = self.write_calls.saturating_add(1);
        if fs::write(&self.rt, name, bytes).is_err() {
            self.write_faults = self.write_faults.saturating_add(1);
            return Err(FileFault::Failed);
        }
        Ok(())
    }
}

#[cfg(test)]
mod tests {
    use super::*;
    use std::test::Fail;
    use std::{env, process};

    #[test]
    fn reads_and_writes_in_a_folder(rt: HostRuntime) -> Result<(), Fail> {
        let alloc = rt.alloc();
        let base = env::temp_dir(&rt)?;
        let number = process::id(rt.process());
        let folder = format!(in alloc; "{}/vericon-files-{number}", base.as_str())?;
        fs::create_dir(&rt, folder.as_str())?;
        let program = format!(in alloc; "{folder}/program")?;
        let nowhere = format!(in alloc; "{folder}/none/program")?;
        let long = vec![in alloc; 7u8; 5000]?;
        let mut files = HostFiles::new(rt.clone()?);

        let missing = files.read_all(alloc, program.as_str(), 5);
        assert_eq!(rt; missing, Err(FileFault::Missing));
        files.write_all(alloc, program.as_str(), b"abcde")?;
        assert_eq!(rt;
            files.read_all(alloc, program.as_str(), 5)?.as_slice(),
            b"abcde".as_slice()
        );
        let too_long = files.read_all(alloc, program.as_str(), 4);
        assert_eq!(rt; too_long, Err(FileFault::TooLong));
        files.write_all(alloc, program.as_str(), &long)?;
        assert_eq!(rt;
            files.read_all(alloc, program.as_str(), 5000)?.as_slice(),
            long.as_slice()
        );

        let no_file = files.read_all(alloc, folder.as_str(), 5);
        assert_eq!(rt; no_file, Err(FileFault::Failed));
        let no_folder = files.write_all(alloc, nowhere.as_str(), b"abcde");
        assert_eq!(rt; no_folder, Err(FileFault::Failed));
        fs::remove_dir_all(&rt, folder.as_str())?;
        Ok(())
    }
}
