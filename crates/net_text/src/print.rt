//! The printer of network texts.
ghost use Rattle.std.specs.Prelude.{◌≡◌, ◌++◌, ◌∷◌, IfOk, OnOk, decimal, map};
ghost use Rattle.std.specs.List.{flat_map};
ghost use Rattle.text_lines.specs.Printed.{line_text, spaced};
ghost use Rattle.csdn_core.specs.Network.{elements};
ghost use Rattle.net_structs.specs.Networks.{as_stored};
ghost use Rattle.net_text.specs.NetText.{constant_lines, head_lines, name_of as name_in_program, net_text, packet_lines, part_lines, row_words, state_lines};

use csdn_core::event::Packet;
use csdn_core::program::{Constant, Program};
use csdn_core::terms::{Pred, RelId, Sort};
use net_structs::case::Case;
use net_structs::network::Network;
use net_structs::row::Row;
use net_structs::state::State;
use sqlite_items::Items;
use std::alloc::{AllocError, Global};
use text_lines::{put_line, put_line_end, put_next_number, put_next_word, put_word};

/// The bytes of a text.
pub type Text = Items<u8>;

/// The text of a case (docs/FORMATS.md, "Network text"): elements and tuples rising, constants and relations in the
/// program's order.
pub fn print_net(alloc: Global, program: &Program, case: &Case) -> Result<Text, AllocError>
    ensures { IfOk result (λ text. text ≡ net_text program.now case.now) }
{
    let text = text_of(alloc, program, case)?;
    Ok(Items::from_vec(text))
}

fn text_of(alloc: Global, program: &Program, case: &Case) -> Result<Vec<u8>, AllocError>
    ensures { IfOk result (λ text. text.items ≡ net_text program.now case.now) }
{
    let mut out = Vec::new(alloc);
    put_head(&mut out, &case.network)?;
    put_parts(alloc, &mut out, program, case)?;
    Ok(out)
}

// The header and the sorts.
fn put_head(out: &mut Vec<u8>, network: &Network) -> Result<(), AllocError>
    ensures { OnOk result (out.new.items ≡ out.old.items ++ flat_map line_text (head_lines network.now)) }
{
    put_named(out, b"vericon-net", b"1", &[])?;
    put_sort(out, b"sw", network, Sort::Sw)?;
    put_sort(out, b"ho", network, Sort::Ho)?;
    put_sort(out, b"pr", network, Sort::Pr)
}

fn put_sort(out: &mut Vec<u8>, word: &[u8], network: &Network, sort: Sort) -> Result<(), AllocError>
    ensures { OnOk result (out.new.items ≡ out.old.items ++ line_text (word.now ∷ map decimal (elements network.now sort))) }
{
    put_line(out, word, network.elements(sort))
}

// What stands behind the sorts.
fn put_parts(
    alloc: Global,
    out: &mut Vec<u8>,
    program: &Program,
    case: &Case,
) -> Result<(), AllocError>
    ensures { OnOk result (out.new.items ≡ out.old.items ++ flat_map line_text (part_lines program.now case.now)) }
{
    put_values(out, program, &case.network)?;
    put_static_rows(alloc, out, program, &case.network)?;
    put_state(alloc, out, program, &case.state)?;
    put_packet(out, case.packet)?;
    put_line(out, b"end", &[])
}

fn put_values(out: &mut Vec<u8>, program: &Program, network: &Network) -> Result<(), AllocError>
    ensures { OnOk result (out.new.items ≡ out.old.items ++ flat_map line_text (constant_lines program.now.constants network.now.constants)) }
{
    put_constants(out, program.parts().constants.as_slice(), network.values())
}

fn put_static_rows(
    alloc: Global,
    out: &mut Vec<u8>,
    program: &Program,
    network: &Network,
) -> Result<(), AllocError>
    ensures { OnOk result (out.new.items ≡ out.old.items ++ flat_map line_text (map (row_words program.now) (as_stored network.now.rows))) }
{
    let rows = network.rows(alloc)?;
    put_rows(out, program, rows.as_slice())
}

// A line of a word, a name and numbers.
fn put_named(out: &mut Vec<u8>, word: &[u8], name: &[u8], numbers: &[u64]) -> Result<(), AllocError>
    ensures { OnOk result (out.new.items ≡ out.old.items ++ line_text (word.now ∷ name.now ∷ map decimal numbers.now)) }
{
    put_word(out, word)?;
    put_next_word(out, name)?;
    put_numbers(out, numbers)?;
    put_line_end(out)
}

// Each number with a space before it.
fn put_numbers(out: &mut Vec<u8>, numbers: &[u64]) -> Result<(), AllocError>
    ensures { OnOk result (out.new.items ≡ out.old.items ++ spaced (map decimal numbers.now)) }
{
    let mut rest = numbers;
    'numbers: while let [n, more @ ..] = rest {
        put_next_number(out, *n)?;
        rest = more;
    }
    Ok(())
}

fn put_constants(
    out: &mut Vec<u8>,
    constants: &[Constant],
    values: &[u64],
) -> Result<(), AllocError>
    ensures { OnOk result (out.new.items ≡ out.old.items ++ flat_map line_text (constant_lines constants.now values.now)) }
{
    let mut constants = constants;
    let mut values = values;
    'constants: while let [constant, more_constants @ ..] = constants {
        let [value, more_values @ ..] = values else {
            return Ok(());
        };
        put_named(out, b"c", constant.name.as_slice(), &[*value])?;
        constants = more_constants;
        values = more_values;
    }
    Ok(())
}

fn name_of(program: &Program, rel: RelId) -> &[u8]
    ensures { result.now ≡ name_in_program program.now rel.0 }
{
    match program.parts().relations.get(rel.0 as usize) {
        Some(relation) => relation.name.as_slice(),
        None => &[],
    }
}

fn put_row(out: &mut Vec<u8>, program: &Program, row: &Row) -> Result<(), AllocError>
    ensures { OnOk result (out.new.items ≡ out.old.items ++ line_text (row_words program.now row.now)) }
{
    let cells = row.cells.as_slice();
    match row.pred {
        Pred::Stored(rel) => put_named(out, b"t", name_of(program, rel), cells),
        Pred::Ft => put_line(out, b"ft", cells),
        Pred::Sent => put_line(out, b"sent", cells),
        Pred::RcvThis => put_line(out, b"rcv_this", cells),
    }
}

fn put_rows(out: &mut Vec<u8>, program: &Program, rows: &[Row]) -> Result<(), AllocError>
    ensures { OnOk result (out.new.items ≡ out.old.items ++ flat_map line_text (map (row_words program.now) rows.now)) }
{
    let mut rest = rows;
    'rows: while let [row, more @ ..] = rest {
        put_row(out, program, row)?;
        rest = more;
    }
    Ok(())
}

fn put_state(
    alloc: Global,
    out: &mut Vec<u8>,
    program: &Program,
    state: &Option<State>,
) -> Result<(), AllocError>
    ensures { OnOk result (out.new.items ≡ out.old.items ++ flat_map line_text (state_lines program.now state.now)) }
{
    match state {
        None => Ok(()),
        Some(state) => {
            put_line(out, b"state", &[])?;
            let rows = state.all_rows(alloc)?;
            put_rows(out, program, rows.as_slice())
        }
    }
}

fn put_packet(out: &mut Vec<u8>, packet: Packet) -> Result<(), AllocError>
    ensures { OnOk result (out.new.items ≡ out.old.items ++ flat_map line_text (packet_lines packet)) }
{
    match packet {
        Packet::Nothing => Ok(()),
        Packet::At { s, a, b, i } => put_line(out, b"packet", &[s, a, b, i]),
    }
}
