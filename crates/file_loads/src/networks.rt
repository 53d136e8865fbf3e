//! Files that are read as a network over which sessions are served.
ghost use Rattle.std.specs.Prelude.{◌≡◌, IfOk};
ghost use Rattle.file_loads.specs.declared.read.FileKind.TheVariants.{Network as NetworkFile};
ghost use Rattle.file_loads.specs.Lines.{Says};
ghost use Rattle.file_loads.specs.Views.{OnlyReads, change_of};
ghost use Rattle.file_loads.specs.Networks.{IsOpenNetwork, IsNoOpenNetwork, IsOpened, has_state_text, not_servable_text};
ghost use Rattle.file_loads.specs.Gives.{Gives, Reads};

use crate::load::case_of;
use crate::outcome::{Outcome, Status};
use crate::read::{FileKind, Load, read_file};
use csdn_core::program::Program;
use net_structs::case::Case;
use net_structs::network::Network;
use std::alloc::{AllocError, Global};
use text_lines::put_word;
use vericon_edge::files::Files;

/// `NAME refused: state`
fn has_state(alloc: Global, name: &str) -> Result<Outcome, AllocError>
    ensures { IfOk result (Says (has_state_text name.now) 3) }
{
    let mut text = Vec::new(alloc);
    put_word(&mut text, name.as_bytes())?;
    put_word(&mut text, b" refused: state\n")?;
    Ok(Outcome {
        text,
        status: Status::Refused,
    })
}

/// `NAME refused: not servable`
fn not_servable(alloc: Global, name: &str) -> Result<Outcome, AllocError>
    ensures { IfOk result (Says (not_servable_text name.now) 3) }
{
    let mut text = Vec::new(alloc);
    put_word(&mut text, name.as_bytes())?;
    put_word(&mut text, b" refused: not servable\n")?;
    Ok(Outcome {
        text,
        status: Status::Refused,
    })
}

// The network of a case, where it can be served over.
fn open_network(alloc: Global, name: &str, case: Case) -> Result<Load<Network>, AllocError>
    ensures { IfOk result (IsOpened name.now case) }
{
    let Case { network, state, .. } = case;
    if state.is_some() {
        return Ok(Load::Refused(has_state(alloc, name)?));
    }
    if !network.is_servable() {
        return Ok(Load::Refused(not_servable(alloc, name)?));
    }
    Ok(Load::Loaded(network))
}

// The network that bytes are.
fn network_of(
    alloc: Global,
    program: &Program,
    name: &str,
    bytes: &[u8],
) -> Result<Load<Network>, AllocError>
    ensures { IfOk result (Reads bytes.now (IsOpenNetwork program.now) (IsNoOpenNetwork program.now name.now)) }
{
    match case_of(alloc, program, name, bytes)? {
        Load::Loaded(case) => open_network(alloc, name, case),
        Load::Refused(outcome) => Ok(Load::Refused(outcome)),
    }
}

/// The network of a file, over which sessions are served, or what is said where there is none: `NAME refused line N: WHY`,
/// `NAME refused: state` or `NAME refused: not servable`. It reads once.
pub fn load_network<F: Files>(
    alloc: Global,
    files: &mut F,
    program: &Program,
    name: &str,
) -> Result<Load<Network>, AllocError>
    ensures load { IfOk result (Gives (change_of F.told F.read_calls F.write_calls F.read_faults F.write_faults files.old files.new) NetworkFile name.now (IsOpenNetwork program.now) (IsNoOpenNetwork program.now name.now)) }
    ensures reads { OnlyReads 1 (change_of F.told F.read_calls F.write_calls F.read_faults F.write_faults files.old files.new) }
{
    match read_file(alloc, files, FileKind::Network, name)? {
        Load::Loaded(bytes) => network_of(alloc, program, name, &bytes),
        Load::Refused(outcome) => Ok(Load::Refused(outcome)),
    }
}
