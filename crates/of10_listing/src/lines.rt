//! The lines of a listing.

ghost use Rattle.std.specs.Prelude.{◌≡◌, ◌++◌, OnOk};
ghost use Rattle.of10_listing.specs.Lines.{type_name, why_name, frame_line, cut_line, refused_line, tail_line, IsNear};

use of10_stream::Tail;
use of10_wire::{WireWhy, message_type};
use std::alloc::AllocError;
use text_lines::{put_line_end, put_number, put_word};

/// The name of a message type of OpenFlow 1.0.
#[tactic(auto, unfolding(crate::specs::Lines::type_name))]
fn type_name(kind: u8) -> &'static [u8]
    ensures { result.now ≡ type_name kind }
{
    match kind {
        message_type::HELLO => b"HELLO",
        message_type::ERROR => b"ERROR",
        message_type::ECHO_REQUEST => b"ECHO_REQUEST",
        message_type::ECHO_REPLY => b"ECHO_REPLY",
        message_type::VENDOR => b"VENDOR",
        message_type::FEATURES_REQUEST => b"FEATURES_REQUEST",
        message_type::FEATURES_REPLY => b"FEATURES_REPLY",
        message_type::GET_CONFIG_REQUEST => b"GET_CONFIG_REQUEST",
        message_type::GET_CONFIG_REPLY => b"GET_CONFIG_REPLY",
        message_type::SET_CONFIG => b"SET_CONFIG",
        message_type::PACKET_IN => b"PACKET_IN",
        message_type::FLOW_REMOVED => b"FLOW_REMOVED",
        message_type::PORT_STATUS => b"PORT_STATUS",
        message_type::PACKET_OUT => b"PACKET_OUT",
        message_type::FLOW_MOD => b"FLOW_MOD",
        message_type::PORT_MOD => b"PORT_MOD",
        message_type::STATS_REQUEST => b"STATS_REQUEST",
        message_type::STATS_REPLY => b"STATS_REPLY",
        message_type::BARRIER_REQUEST => b"BARRIER_REQUEST",
        message_type::BARRIER_REPLY => b"BARRIER_REPLY",
        message_type::QUEUE_GET_CONFIG_REQUEST => b"QUEUE_GET_CONFIG_REQUEST",
        message_type::QUEUE_GET_CONFIG_REPLY => b"QUEUE_GET_CONFIG_REPLY",
        _ => b"",
    }
}

/// The name of a rule that bytes break.
#[tactic(auto, unfolding(crate::specs::Lines::why_name))]
pub fn why_name(why: WireWhy) -> &'static [u8]
    ensures { result.now ≡ why_name why }
{
    match why {
        WireWhy::Memory => b"Memory",
        WireWhy::BadVersion => b"BadVersion",
        WireWhy::BadType => b"BadType",
        WireWhy::BadLength => b"BadLength",
        WireWhy::BadAction => b"BadAction",
        WireWhy::BadStat => b"BadStat",
        WireWhy::BadProperty => b"BadProperty",
    }
}

/// What a line says of a message.
#[derive(Clone, Copy, Debug)]
pub struct Line {
    /// The number of its type.
    pub kind: u8,
    /// In bytes, the header among them.
    pub length: usize,
    pub xid: u32,
}

/// Appends the line of a message whose frame begins at this byte of the stream (docs/COMMANDS.md, "frames").
pub fn put_message_line(out: &mut Vec<u8>, at: usize, line: Line) -> Result<(), AllocError>
    ensures { OnOk result (out.new.items ≡ out.old.items ++ frame_line at line.kind line.length line.xid) }
{
    put_number(out, at as u64)?;
    put_word(out, b" ")?;
    put_word(out, type_name(line.kind))?;
    put_word(out, b" length ")?;
    put_number(out, line.length as u64)?;
    put_word(out, b" xid ")?;
    put_number(out, u64::from(line.xid))?;
    put_line_end(out)
}

/// Appends the line of so many bytes that are too few.
fn put_cut_line(out: &mut Vec<u8>, at: usize, len: usize) -> Result<(), AllocError>
    ensures { OnOk result (out.new.items ≡ out.old.items ++ cut_line at len) }
{
    if len == 0 {
        return Ok(());
    }
    put_number(out, at as u64)?;
    put_word(out, b" cut ")?;
    put_number(out, len as u64)?;
    put_line_end(out)
}

/// Appends the line of a refusal at a place.
fn put_refused_line(out: &mut Vec<u8>, at: usize, why: WireWhy) -> Result<(), AllocError>
    ensures { OnOk result (out.new.items ≡ out.old.items ++ refused_line at why) }
{
    put_number(out, at as u64)?;
    put_word(out, b" refused ")?;
    put_word(out, why_name(why))?;
    put_line_end(out)
}

/// Appends the line of what is left from this byte of the stream on; none where nothing is left.
pub fn put_tail_line(out: &mut Vec<u8>, at: usize, tail: Tail) -> Result<(), AllocError>
    requires { IsNear at tail }
    ensures { OnOk result (out.new.items ≡ out.old.items ++ tail_line at tail) }
{
    match tail {
        Tail::Cut(len) => put_cut_line(out, at, len),
        Tail::Broken(refusal) => put_refused_line(out, at + refusal.at, refusal.why),
    }
}
