//! Counterexamples as texts.
ghost use Rattle.std.specs.Prelude.{◌≡◌, ◌<◌, ◌≤◌, ◌^◌, ◌++◌, IfOk, OnOk, length, All};
ghost use Rattle.std.specs.Ordering.{nat_cmp};
ghost use Rattle.std.specs.List.Sorted.{IsStrictlySortedBy};
ghost use Rattle.csdn_core.specs.declared.terms.Sort.{Sort as AnySort};
ghost use Rattle.csdn_core.specs.Network.{elements};
ghost use Rattle.net_structs.specs.Networks.{static_cmp};
ghost use Rattle.net_text.specs.NetText.{net_text};
ghost use Rattle.net_facts.specs.Cases.{IsInOrder, IsRisingState};
ghost use Rattle.csdn_conditions.specs.Kinds.{kinds};
ghost use Rattle.csdn_conditions.specs.Answers.{OfCondition};
ghost use Rattle.vericon_decide.specs.Verdicts.{IsCaseOf};
ghost use Rattle.answer_listing.specs.Counterexamples.{IsCounterexampleText, counterexample_line, counterexample_text};

use crate::words::put_condition;
use csdn_conditions::kinds::{CondKind, condition_kind};
use csdn_core::program::Program;
use csdn_core::terms::Sort;
use net_structs::case::Case;
use net_structs::network::Network;
use net_structs::state::State;
use net_text::print_net;
use std::alloc::{AllocError, Global};
use text_lines::{put_line_end, put_number, put_word};

// `counterexample level N condition I KIND`
fn line_of(
    alloc: Global,
    program: &Program,
    level: u8,
    index: u32,
    kind: CondKind,
) -> Result<Vec<u8>, AllocError>
    ensures { IfOk result (λ line. line.items ≡ counterexample_line program.now level index kind) }
{
    let mut out = Vec::new(alloc);
    put_word(&mut out, b"counterexample level ")?;
    put_number(&mut out, u64::from(level))?;
    put_word(&mut out, b" condition ")?;
    put_condition(&mut out, program, index, kind)?;
    put_line_end(&mut out)?;
    Ok(out)
}

fn put_net(
    alloc: Global,
    out: &mut Vec<u8>,
    program: &Program,
    case: &Case,
) -> Result<(), AllocError>
    ensures { OnOk result (out.new.items ≡ out.old.items ++ net_text program.now case.now) }
{
    let net = print_net(alloc, program, case)?;
    put_word(out, net.as_slice())
}

fn text_of(
    alloc: Global,
    program: &Program,
    level: u8,
    index: u32,
    kind: CondKind,
    case: &Case,
) -> Result<Vec<u8>, AllocError>
    ensures { IfOk result (λ text. text.items ≡ counterexample_text program.now level index kind case.now) }
{
    let mut out = line_of(alloc, program, level, index, kind)?;
    put_net(alloc, &mut out, program, case)?;
    Ok(out)
}

// They have 64 bits, as all numbers do.
fn are_small(numbers: &[u64])
    ensures { All (λ m. m < 2 ^ 64) numbers.now }
{
    let mut rest = numbers;
    'numbers: while let [number, more @ ..] = rest {
        let _number = *number;
        rest = more;
    }
}

// The elements of a sort rise, as networks keep them.
fn sort_is_in_order(network: &Network, sort: Sort)
    ensures rise { IsStrictlySortedBy nat_cmp (elements network.now sort) }
    ensures small { All (λ m. m < 2 ^ 64) (elements network.now sort) }
{
    are_small(network.elements(sort));
}

fn elements_are_in_order(network: &Network)
    ensures rise { (s : AnySort) → IsStrictlySortedBy nat_cmp (elements network.now s) }
    ensures small { (s : AnySort) → All (λ m. m < 2 ^ 64) (elements network.now s) }
{
    sort_is_in_order(network, Sort::Sw);
    sort_is_in_order(network, Sort::Ho);
    sort_is_in_order(network, Sort::Pr);
}

fn rows_are_in_order(alloc: Global, network: &Network) -> Result<(), AllocError>
    ensures { OnOk result (IsStrictlySortedBy static_cmp network.now.rows) }
{
    let _rows = network.rows(alloc)?;
    Ok(())
}

fn state_is_in_order(state: &Option<State>)
    ensures { IsRisingState state.now }
{
    match state {
        None => {}
        Some(state) => state.rises(),
    }
}

fn case_is_in_order(alloc: Global, case: &Case) -> Result<(), AllocError>
    ensures { OnOk result (IsInOrder case.now) }
{
    elements_are_in_order(&case.network);
    state_is_in_order(&case.state);
    rows_are_in_order(alloc, &case.network)
}

/// `counterexample level N condition I KIND`, and the lines of this case of the condition of this number.
pub fn counterexample_of(
    alloc: Global,
    program: &Program,
    level: u8,
    index: u32,
    case: &Case,
) -> Result<Vec<u8>, AllocError>
    requires level { level ≤ 9 }
    requires index { index < length (kinds program.now level) }
    requires case { OfCondition program.now level index (λ c. IsCaseOf program.now c case.now) }
    ensures { IfOk result (λ text. IsCounterexampleText program.now level index case.now text.items) }
{
    let _parts = program.parts();
    let kind = condition_kind(program, level, index);
    case_is_in_order(alloc, case)?;
    text_of(alloc, program, level, index, kind, case)
}
