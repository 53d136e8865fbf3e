//! What bench/ times of a runtime. `PACKETS HOSTS PORTS FILE` enters so many packets of one switch, between so many hosts, each at
//! one of so many ports, into a runtime of the program of the file, and prints how many rules and outs came.
#![tactic(auto)]

mod drawing;
mod packets;
mod trouble;

use crate::packets::{Sizes, network_of, replies_of};
use crate::trouble::Trouble;
use csdn_read::read_program;
use std::alloc::Global;
use std::process::ExitCode;
use vericon_edge::files::Files;
use vericon_edge::host_files::HostFiles;
use vericon_edge::host_words::host_words;

/// The longest file that is read.
const LONGEST: usize = 65_536;

/// The number that a word spells.
fn number_of(word: &str) -> Result<u32, Trouble> {
    match word.parse::<u32>() {
        Ok(number) => Ok(number),
        Err(_) => Err(Trouble::Words),
    }
}

/// The line that the words ask for.
fn line_of<F: Files>(alloc: Global, files: &mut F, words: &[String]) -> Result<String, Trouble> {
    let [packets, hosts, ports, name] = words else {
        return Err(Trouble::Words);
    };
    let sizes = Sizes {
        packets: number_of(packets.as_str())?,
        hosts: number_of(hosts.as_str())?,
        ports: number_of(ports.as_str())?,
    };
    let text = files.read_all(alloc, name.as_str(), LONGEST)?;
    let Ok(program) = read_program(alloc, &text) else {
        return Err(Trouble::Program);
    };
    let network = network_of(alloc, &program, &sizes)?;
    let counts = replies_of(alloc, program, network, &sizes)?;
    let (rules, outs) = (counts.rules, counts.outs);
    Ok(format!(in alloc; "rules {rules} outs {outs}")?)
}

fn main(rt: HostRuntime) -> ExitCode {
    let alloc = rt.alloc();
    let mut files = HostFiles::new(rt);
    let line = match host_words(alloc, &rt) {
        Ok(words) => line_of(alloc, &mut files, &words),
        Err(_) => Err(Trouble::Words),
    };
    let (told, status) = match &line {
        Ok(line) => (println!(rt; "{line}"), ExitCode::SUCCESS),
        Err(trouble) => (println!(rt; "{trouble}"), ExitCode::FAILURE),
    };
    match told {
        Ok(()) => status,
        Err(_) => ExitCode::FAILURE,
    }
}
