//! From words and files to the start of a run, or to what is told in place of it. The listener isn't used here.
ghost use Rattle.std.specs.Prelude.{◌≡◌, [], ◌∷◌, None, length, map, string_bytes, IfOk};
ghost use Rattle.csdn_core.specs.Network.{IsNetwork};
ghost use Rattle.net_structs.specs.Networks.{IsServable};
ghost use Rattle.command_words.specs.Calls.{asked_call, if_serves};
ghost use Rattle.vericon_decide.specs.Answers.{IsYes};
ghost use Rattle.file_loads.specs.declared.read.FileKind.TheVariants.{Program as ProgramFile, Network as NetworkFile};
ghost use Rattle.file_loads.specs.Lines.{Says};
ghost use Rattle.file_loads.specs.Views.{OnlyReads, change_of};
ghost use Rattle.file_loads.specs.Loads.{WithProgram};
ghost use Rattle.vericon_app.specs.Calls.{files_named};
ghost use Rattle.vericon_app.specs.Output.{Output};
ghost use Rattle.vericon_run.specs.Outputs.{Unserved, UnservedNetwork, UnservedProgram, breaks_text, first_broken};
ghost use Rattle.vericon_run.specs.Starts.{IsBreach, IsPrepared, IsPreparedOver, IsProvenStart, IsStartAsked, IsStartFor, IsStartFrom, IsStartOf, IsStartOver, run_files};

use crate::asking::order_of;
use crate::order::Order;
use crate::prepared::{Prepared, Start};
use answer_listing::yes_line;
use command_words::request::Request;
use command_words::run_request;
use csdn_core::program::Program;
use csdn_run::Runtime;
use file_loads::lines::usage;
use file_loads::load::load_program;
use file_loads::networks::load_network;
use file_loads::outcome::{Outcome, Status};
use file_loads::read::Load;
use net_facts::texts_give_cases;
use net_listing::first_false_topology;
use net_structs::network::Network;
use std::alloc::{AllocError, Global};
use text_lines::{put_line_end, put_word};
use vericon_app::check::{Finding, find};
use vericon_edge::files::Files;

// `NET breaks NAME`
fn breaks(alloc: Global, net: &str, name: &[u8]) -> Result<Outcome, AllocError>
    ensures { IfOk result (Says (breaks_text net.now name.now) 3) }
{
    let mut text = Vec::new(alloc);
    put_word(&mut text, net.as_bytes())?;
    put_word(&mut text, b" breaks ")?;
    put_word(&mut text, name)?;
    put_line_end(&mut text)?;
    Ok(Outcome {
        text,
        status: Status::Refused,
    })
}

// What is told of a network that breaks a topology invariant.
fn breach(
    alloc: Global,
    net: &str,
    program: &Program,
    network: &Network,
) -> Result<Option<Outcome>, AllocError>
    ensures { IfOk result (IsBreach program.now net.now network.now) }
{
    match first_false_topology(alloc, program, network)? {
        Some(name) => Ok(Some(breaks(alloc, net, name)?)),
        None => Ok(None),
    }
}

// The start of a run over a network that breaks no topology invariant.
fn start(
    alloc: Global,
    order: &Order,
    program: Program,
    network: Network,
    level: u8,
) -> Result<Start, AllocError>
    requires of_program { IsNetwork program network }
    requires servable { IsServable network }
    requires unbroken { first_broken program network ≡ None }
    ensures { IfOk result (IsStartOver order.now program network level) }
{
    let first = yes_line(alloc, level)?;
    let runtime = Runtime::try_new(alloc, program, network, order.room)?;
    Ok(Start {
        runtime,
        first,
        terms: order.terms,
        port: order.port,
    })
}

// The start of a run over a network.
fn prepare_network(
    alloc: Global,
    order: &Order,
    net: &str,
    program: Program,
    network: Network,
    level: u8,
) -> Result<Prepared, AllocError>
    requires of_program { IsNetwork program network }
    requires servable { IsServable network }
    ensures { IfOk result (IsPreparedOver order.now program net.now network level) }
{
    match breach(alloc, net, &program, &network)? {
        Some(outcome) => Ok(Prepared::Told(outcome)),
        None => Ok(Prepared::Ready(start(alloc, order, program, network, level)?)),
    }
}

// The start of a run of a proven program over the network of a file.
fn prepare_proven<F: Files>(
    alloc: Global,
    files: &mut F,
    order: &Order,
    net: &str,
    program: Program,
    level: u8,
) -> Result<Prepared, AllocError>
    ensures prepared { IfOk result (IsPrepared (change_of F.told F.read_calls F.write_calls F.read_faults F.write_faults files.old files.new) (record { kind = NetworkFile; name = net.now } ∷ []) (UnservedNetwork program net.now) (IsStartOf (change_of F.told F.read_calls F.write_calls F.read_faults F.write_faults files.old files.new) order.now program net.now level)) }
    ensures reads { OnlyReads 1 (change_of F.told F.read_calls F.write_calls F.read_faults F.write_faults files.old files.new) }
{
    // Its contract says that what a text reads as is a network of the program.
    texts_give_cases();
    match load_network(alloc, files, &program, net)? {
        Load::Loaded(network) => prepare_network(alloc, order, net, program, network, level),
        Load::Refused(outcome) => Ok(Prepared::Told(outcome)),
    }
}

// The start of a run of a program over the network of a file, which is read once the program is proven.
fn prepare_program<F: Files>(
    alloc: Global,
    files: &mut F,
    order: &Order,
    net: &str,
    program: Program,
) -> Result<Prepared, AllocError>
    ensures prepared { IfOk result (IsPrepared (change_of F.told F.read_calls F.write_calls F.read_faults F.write_faults files.old files.new) (record { kind = NetworkFile; name = net.now } ∷ []) (UnservedProgram order.now.size order.now.most net.now program) (IsProvenStart (change_of F.told F.read_calls F.write_calls F.read_faults F.write_faults files.old files.new) order.now program net.now)) }
    ensures reads { OnlyReads 1 (change_of F.told F.read_calls F.write_calls F.read_faults F.write_faults files.old files.new) }
{
    match find(alloc, &program, order.size, order.most)? {
        Finding::Proven {
            level,
            proofs: _proofs,
        } => prepare_proven(alloc, files, order, net, program, level),
        Finding::Told(outcome) => Ok(Prepared::Told(outcome)),
    }
}

// The start of a run of the program of a file over the network of another.
fn prepare_files<F: Files>(
    alloc: Global,
    files: &mut F,
    order: &Order,
    name: &str,
    net: &str,
) -> Result<Prepared, AllocError>
    ensures prepared { IfOk result (IsPrepared (change_of F.told F.read_calls F.write_calls F.read_faults F.write_faults files.old files.new) (record { kind = ProgramFile; name = name.now } ∷ record { kind = NetworkFile; name = net.now } ∷ []) (WithProgram name.now (UnservedProgram order.now.size order.now.most net.now)) (IsStartFrom (change_of F.told F.read_calls F.write_calls F.read_faults F.write_faults files.old files.new) order.now name.now net.now)) }
    ensures reads { OnlyReads 2 (change_of F.told F.read_calls F.write_calls F.read_faults F.write_faults files.old files.new) }
{
    match load_program(alloc, files, name)? {
        Load::Loaded(program) => prepare_program(alloc, files, order, net, program),
        Load::Refused(outcome) => Ok(Prepared::Told(outcome)),
    }
}

// The start of the run that a call asks for.
fn prepare_request<F: Files>(
    alloc: Global,
    request: &Request,
    files: &mut F,
) -> Result<Prepared, AllocError>
    ensures prepared { IfOk result (IsPrepared (change_of F.told F.read_calls F.write_calls F.read_faults F.write_faults files.old files.new) (run_files request.now) (Unserved request.now) (IsStartFor (change_of F.told F.read_calls F.write_calls F.read_faults F.write_faults files.old files.new) request.now)) }
    ensures reads { OnlyReads 2 (change_of F.told F.read_calls F.write_calls F.read_faults F.write_faults files.old files.new) }
{
    let order = order_of(request);
    prepare_files(alloc, files, &order, request.operand(0), request.operand(1))
}

/// The start of the run that the words ask for, or what is told where nobody is served. Each file that is named is read once at most; the
/// network's, once the program is proven.
pub fn prepare<F: Files>(
    alloc: Global,
    words: &[String],
    files: &mut F,
) -> Result<Prepared, AllocError>
    ensures prepared { IfOk result (IsPrepared (change_of F.told F.read_calls F.write_calls F.read_faults F.write_faults files.old files.new) (files_named (if_serves (asked_call (map string_bytes words.now)))) (Output Unserved (if_serves (asked_call (map string_bytes words.now)))) (IsStartAsked (change_of F.told F.read_calls F.write_calls F.read_faults F.write_faults files.old files.new) (if_serves (asked_call (map string_bytes words.now))))) }
    ensures reads { OnlyReads (length (files_named (if_serves (asked_call (map string_bytes words.now))))) (change_of F.told F.read_calls F.write_calls F.read_faults F.write_faults files.old files.new) }
{
    match run_request(words) {
        None => Ok(Prepared::Told(usage(alloc)?)),
        Some(request) => prepare_request(alloc, &request, files),
    }
}
