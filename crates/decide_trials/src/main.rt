//! Trials of `decide`: beside it a plain search goes through all networks of at most two switches, hosts and ports and their
//! states. Where that finds a case of some condition the answer is never yes, and where it finds a network that meets the
//! topology invariants it is never that there is none. Where it finds nothing, nothing follows. A case that is answered is printed,
//! read again and looked at: the topology invariants and the hypothesis of its condition are true there, and the goal false.
#![tactic(auto)]

mod depth;
mod frame;
mod programs;
mod search;
mod subsets;
mod trouble;
mod worlds;

use crate::programs::{Kind, TRIALS};
use crate::search::{Found, breaks, search};
use crate::trouble::Trouble;
use csdn_conditions::class::USUAL_SIZE;
use csdn_core::program::Program;
use csdn_read::read_program;
use net_structs::case::Case;
use net_text::{print_net, read_net};
use std::alloc::Global;
use std::io;
use vericon_decide::answer::{Answer, decide};

/// An answer without its proofs and its reason.
#[derive(Clone, Copy, Debug, PartialEq, Eq)]
enum Told {
    Yes,
    /// A case that breaks its condition.
    Counterexample,
    /// A case that doesn't.
    NoCase,
    Unknown,
    NoNetwork,
}

/// What is answered of a program, and what the search finds.
#[derive(Clone, Copy, Debug, PartialEq, Eq)]
struct Outcome {
    told: Told,
    found: Found,
}

impl Outcome {
    fn of(alloc: Global, text: &[u8]) -> Result<Outcome, Trouble> {
        let program = read_program(alloc, text)?;
        let told = match decide(alloc, &program, USUAL_SIZE, 0)? {
            Answer::Yes { .. } => Told::Yes,
            Answer::Counter { index, case, .. } => told_of_case(alloc, &program, index, &case)?,
            Answer::Unknown { .. } => Told::Unknown,
            Answer::NoNetwork { .. } => Told::NoNetwork,
        };
        let found = search(alloc, &program)?;
        Ok(Outcome { told, found })
    }

    /// Whether the search refutes the answer.
    fn is_refuted(&self) -> bool {
        match self.told {
            Told::Yes => self.found.has_case,
            Told::NoNetwork => self.found.networks > 0,
            Told::NoCase => true,
            Told::Counterexample | Told::Unknown => false,
        }
    }

    /// Whether both are what a program of the kind has.
    fn is_of(&self, kind: Kind) -> bool {
        let has_case = self.found.has_case;
        match kind {
            Kind::Valid => matches!(self.told, Told::Yes) && !has_case,
            Kind::Broken => matches!(self.told, Told::Counterexample) && has_case,
            Kind::BrokenInLarge => matches!(self.told, Told::Counterexample) && !has_case,
            Kind::Undecided => matches!(self.told, Told::Unknown) && !has_case,
            Kind::NoNetwork => matches!(self.told, Told::NoNetwork) && self.found.networks == 0,
        }
    }

    fn judgement(&self, kind: Kind) -> &'static str {
        if self.is_refuted() {
            "REFUTED"
        } else if self.is_of(kind) {
            "agrees"
        } else {
            "DIFFERS"
        }
    }

    fn answer(&self) -> &'static str {
        match self.told {
            Told::Yes => "yes",
            Told::Counterexample => "counterexample",
            Told::NoCase => "no counterexample",
            Told::Unknown => "unknown",
            Told::NoNetwork => "no network",
        }
    }

    fn case(&self) -> &'static str {
        if self.found.has_case {
            "a case"
        } else {
            "no case"
        }
    }
}

/// Whether a case breaks its condition, when it was printed and read again.
fn told_of_case(
    alloc: Global,
    program: &Program,
    index: u32,
    case: &Case,
) -> Result<Told, Trouble> {
    let text = print_net(alloc, program, case)?;
    let read = read_net(alloc, program, text.as_slice())?;
    if breaks(alloc, program, index, &read)? {
        Ok(Told::Counterexample)
    } else {
        Ok(Told::NoCase)
    }
}

fn main(rt: HostRuntime) -> io::Result<()> {
    for trial in &TRIALS {
        let text = trial.text;
        match Outcome::of(rt.alloc(), text.as_bytes()) {
            Ok(outcome) => {
                let judgement = outcome.judgement(trial.kind);
                let answer = outcome.answer();
                let case = outcome.case();
                let Found {
                    networks,
                    states,
                    ..
                } = outcome.found;
                println!(rt;
                    "{judgement}: {answer}, {case} (networks {networks}, states {states}): {text}"
                )?;
            }
            Err(trouble) => println!(rt; "{trouble}: {text}")?,
        }
    }
    Ok(())
}
