//! What is printed of one note.
ghost use Rattle.std.specs.Prelude.{◌≡◌, ◌++◌, [], IfOk, OnOk, is_none};
ghost use Rattle.net_structs.specs.Rows.{held};
ghost use Rattle.trace_listing.specs.Traces.{first_broken as first_broken_of, broken_text, note_text, refused_text, words_of as words_of_refusal};

use crate::invariants::{Setting, first_broken};
use crate::progress::Refusal;
use csdn_core::event::Packet;
use net_structs::env::Env;
use net_structs::state::State;
use std::alloc::AllocError;
use text_lines::{put_number, put_word};

/// Says of a note that happened which invariant is false; transition invariants are asked of the packet, if there is one. The
/// answer is whether all are true.
pub fn put_note(
    out: &mut Vec<u8>,
    setting: &Setting,
    env: &mut Env,
    state: &State,
    packet: &Option<Packet>,
    number: u64,
) -> Result<bool, AllocError>
    requires pairs { env.old.pairs ≡ [] }
    requires room { env.old.room ≡ 24 }
    ensures text { OnOk result (out.new.items ≡ out.old.items ++ note_text number (first_broken_of setting.now.program.now setting.now.network.now (held state.now) packet.now)) }
    ensures unbroken { IfOk result (λ unbroken. unbroken ≡ is_none (first_broken_of setting.now.program.now setting.now.network.now (held state.now) packet.now)) }
    ensures env { env.new ≡ env.old }
{
    let broken = first_broken(setting, env, state, packet);
    match broken {
        None => {
            put_number(out, number)?;
            put_word(out, b" ok\n")?;
            Ok(true)
        }
        Some(name) => {
            put_broken(out, number, name)?;
            Ok(false)
        }
    }
}

// `J broken NAME`
fn put_broken(out: &mut Vec<u8>, number: u64, name: &[u8]) -> Result<(), AllocError>
    ensures { OnOk result (out.new.items ≡ out.old.items ++ broken_text number name.now) }
{
    put_number(out, number)?;
    put_word(out, b" broken ")?;
    put_word(out, name)?;
    put_word(out, b"\n")
}

fn words_of(refusal: Refusal) -> &'static [u8]
    ensures { result.now ≡ words_of_refusal refusal }
{
    match refusal {
        Refusal::Stranger => b"stranger",
        Refusal::NotEnabled => b"not enabled",
    }
}

/// Says why a note is refused.
pub fn put_refusal(out: &mut Vec<u8>, number: u64, refusal: Refusal) -> Result<(), AllocError>
    ensures { OnOk result (out.new.items ≡ out.old.items ++ refused_text number refusal) }
{
    put_word(out, b"entry ")?;
    put_number(out, number)?;
    put_word(out, b": ")?;
    put_word(out, words_of(refusal))?;
    put_word(out, b"\n")
}
