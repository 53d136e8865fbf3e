//! What bench/ times of sessions. `SIZE FILE` hears a file as the bytes of one session, in pieces of so many bytes, and prints how many
//! bytes were said.
#![tactic(auto)]

mod stream;
mod trouble;

use crate::stream::said_to;
use crate::trouble::Trouble;
use std::alloc::Global;
use std::process::ExitCode;
use vericon_edge::files::Files;
use vericon_edge::host_files::HostFiles;
use vericon_edge::host_words::host_words;

/// The longest file that is read.
const LONGEST: usize = 1 << 32;

/// The line that the words ask for.
fn line_of<F: Files>(alloc: Global, files: &mut F, words: &[String]) -> Result<String, Trouble> {
    let [size, name] = words else {
        return Err(Trouble::Words);
    };
    let Ok(size) = size.as_str().parse::<u64>() else {
        return Err(Trouble::Words);
    };
    let bytes = files.read_all(alloc, name.as_str(), LONGEST)?;
    let said = said_to(alloc, &bytes, size)?;
    Ok(format!(in alloc; "said {said}")?)
}

fn main(rt: HostRuntime) -> ExitCode {
    let alloc = rt.alloc();
    let mut files = HostFiles::new(rt);
    let line = match host_words(alloc, &rt) {
        Ok(words) => line_of(alloc, &mut files, &words),
        Err(_) => Err(Trouble::Words),
    };
    let (told, status) = match &line {
        Ok(line) => (println!(rt; "{line}"), ExitCode::SUCCESS),
        Err(trouble) => (println!(rt; "{trouble}"), ExitCode::FAILURE),
    };
    match told {
        Ok(()) => status,
        Err(_) => ExitCode::FAILURE,
    }
}
