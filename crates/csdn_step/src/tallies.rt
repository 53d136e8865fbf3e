//! What an execution is counted to have done.
ghost use Rattle.std.specs.Prelude.{◌≡◌, OnOk};
ghost use Rattle.std.specs.List.{list_any};
ghost use Rattle.csdn_step.specs.Courses.{same_match, same_out, with_match, with_one, with_port};

use csdn_core::event::{Match, Matches, Out, Outs};
use net_structs::cells::Cells;
use std::alloc::AllocError;

fn is_same_match(m: &Match, n: &Match) -> bool
    ensures { result ≡ same_match m.now n.now }
{
    m.s == n.s && (m.a == n.a && (m.b == n.b && m.i == n.i))
}

fn is_same_out(o: &Out, p: &Out) -> bool
    ensures { result ≡ same_out o.now p.now }
{
    match (o, p) {
        (Out::Port(o), Out::Port(p)) => o == p,
        (Out::Flood, Out::Flood) => true,
        _ => false,
    }
}

fn has_match(matches: &[Match], key: &Match) -> bool
    ensures { result ≡ list_any (same_match key.now) matches.now }
{
    matches.iter().any(|m| is_same_match(key, m))
}

fn has_out(outs: &[Out], out: &Out) -> bool
    ensures { result ≡ list_any (same_out out.now) outs.now }
{
    outs.iter().any(|o| is_same_out(out, o))
}

/// Lists the match of a tuple of `ft`, unless it is listed.
pub fn list_match(matches: &mut Matches, cells: &Cells) -> Result<(), AllocError>
    ensures { OnOk result (matches.new ≡ with_match matches.old cells.now) }
{
    match cells.as_slice() {
        [s, a, b, i, _] => {
            let key = Match {
                s: *s,
                a: *a,
                b: *b,
                i: *i,
            };
            if has_match(matches.as_slice(), &key) {
                Ok(())
            } else {
                matches.push(key)
            }
        }
        _ => Ok(()),
    }
}

/// Lists the egress port of a tuple of `sent`, unless it is listed.
pub fn list_port(outs: &mut Outs, cells: &Cells) -> Result<(), AllocError>
    ensures { OnOk result (outs.new ≡ with_port outs.old cells.now) }
{
    match cells.as_slice() {
        [_, _, _, _, o] => list_out(outs, Out::Port(*o)),
        _ => Ok(()),
    }
}

/// Lists a forward or a flood, unless it is listed.
pub fn list_out(outs: &mut Outs, out: Out) -> Result<(), AllocError>
    ensures { OnOk result (outs.new ≡ with_one same_out outs.old out) }
{
    if has_out(outs.as_slice(), &out) {
        Ok(())
    } else {
        outs.push(out)
    }
}
