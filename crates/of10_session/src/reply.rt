//! What a session says when its ask is answered.

ghost use Rattle.std.specs.Prelude.{nat_lt, ◌≡◌, ◌+◌, ◌*◌, ◌<◌, ◌≤◌, ◌^◌, [], ◌∷◌, ◌++◌, length, take, map, All, OnOk, OnErr, IfOk};
ghost use Rattle.of10_wire.specs.Layout.{bytes_of};
ghost use Rattle.of10_msgs.specs.declared.message.Message.TheVariants.{PacketOut};
ghost use Rattle.of10_session.specs.Progresses.{next_xid};
ghost use Rattle.of10_session.specs.Sessions.{spelled};
ghost use Rattle.of10_session.specs.Replies.{welcoming, forwarding, going_on, clearing, configuring, IsServable, flow_of, flow_of_match, flags_for, output_to, out_action, adding, removing, changing, xid_behind, spelled_from, sending_on, IsServableRule, IsServableOut};

use byteorder::{BigEndian, ByteOrder};
use csdn_core::event::{Match, Out};
use csdn_history::reply::{Reply, Rule};
use of10_msgs::{Message, encode};
use of10_wire::{Action, Actions, Body, FlowMatch, reserved_port};
use std::alloc::{AllocError, Global};

/// The port, the source and the destination are looked at.
const EXACT: u32 = 0x003f_fff2;

/// Nothing is looked at.
const ANY: u32 = 0x003f_ffff;

const ADD: u16 = 0;

const DELETE_ALL_THAT_FIT: u16 = 3;

const DELETE_THAT_ONE: u16 = 4;

const PRIORITY: u16 = 32768;

const NO_BUFFER: u32 = 0xffff_ffff;

/// The xid behind this one.
pub fn next(xid: u32) -> u32
    ensures { result ≡ next_xid xid }
{
    xid.wrapping_add(1)
}

/// The six bytes of a host's address.
#[tactic(auto, unfolding(of10_wire::specs::Layout::bytes_of))]
fn address(host: u64) -> [u8; 6]
    requires { host < 2 ^ 48 }
    ensures { result ≡ bytes_of 6 host }
{
    let mut bytes = [0; 6];
    BigEndian::write_u48(&mut bytes, host);
    bytes
}

/// The packets of a port, a source and a destination, as far as the wildcards look at them.
fn flow_match(wildcards: u32, in_port: u16, dl_src: [u8; 6], dl_dst: [u8; 6]) -> FlowMatch
    ensures { result ≡ flow_of wildcards in_port dl_src dl_dst }
{
    FlowMatch {
        wildcards,
        in_port,
        dl_src,
        dl_dst,
        dl_vlan: 0,
        dl_vlan_pcp: 0,
        dl_type: 0,
        nw_tos: 0,
        nw_proto: 0,
        nw_src: 0,
        nw_dst: 0,
        tp_src: 0,
        tp_dst: 0,
    }
}

fn flow_for(key: &Match) -> FlowMatch
    requires source { key.now.a < 2 ^ 48 }
    requires destination { key.now.b < 2 ^ 48 }
    requires port { key.now.i < 2 ^ 16 }
    ensures { result ≡ flow_of_match key.now }
{
    flow_match(EXACT, key.i as u16, address(key.a), address(key.b))
}

fn output(ingress: u64, port: u64) -> Action
    requires { port < 2 ^ 16 }
    ensures { result ≡ output_to ingress port }
{
    if port == ingress {
        return Action::Output {
            port: reserved_port::IN_PORT,
            max_len: 0,
        };
    }
    Action::Output {
        port: port as u16,
        max_len: 0,
    }
}

fn outputs(alloc: Global, ingress: u64, ports: &[u64]) -> Result<Actions, AllocError>
    requires { All (λ p. p < 2 ^ 16) ports.now }
    ensures { IfOk result (λ actions. actions ≡ map (output_to ingress) ports.now) }
{
    let mut actions = Vec::new(alloc);
    for port in ports {
        actions.push(output(ingress, *port))?;
    }
    Ok(Actions::from_vec(actions))
}

fn out_action(ingress: u64, out: Out) -> Action
    requires { IsServableOut out }
    ensures { result ≡ out_action ingress out }
{
    match out {
        Out::Port(port) => output(ingress, port),
        Out::Flood => Action::Output {
            port: reserved_port::ALL,
            max_len: 0,
        },
    }
}

fn out_actions(alloc: Global, ingress: u64, outs: &[Out]) -> Result<Actions, AllocError>
    requires { All IsServableOut outs.now }
    ensures { IfOk result (λ actions. actions ≡ map (out_action ingress) outs.now) }
{
    let mut actions = Vec::new(alloc);
    for out in outs {
        actions.push(out_action(ingress, *out))?;
    }
    Ok(Actions::from_vec(actions))
}

fn flags_for(idle: u16) -> u16
    ensures { result ≡ flags_for idle }
{
    if idle == 0 { 0 } else { 1 }
}

/// Appends the message that adds a rule.
#[tactic(auto, using(crate::proofs::Sendable::sendable_rule))]
fn add_rule(alloc: Global, xid: u32, rule: &Rule, out: &mut Vec<u8>) -> Result<(), AllocError>
    requires { IsServableRule rule.now }
    ensures bytes { OnOk result (out.new.items ≡ out.old.items ++ spelled (adding rule.now xid ∷ [])) }
    ensures err { OnErr result (out.new.items ≡ out.old.items) }
{
    let message = Message::FlowMod {
        xid,
        flow: flow_for(&rule.key),
        cookie: rule.cookie,
        command: ADD,
        idle_timeout: rule.idle,
        hard_timeout: 0,
        priority: PRIORITY,
        buffer_id: NO_BUFFER,
        out_port: reserved_port::NONE,
        flags: flags_for(rule.idle),
        actions: outputs(alloc, rule.key.i, rule.ports.as_slice())?,
    };
    encode(&message, out)
}

/// Appends the message that deletes a rule.
#[tactic(auto, using(crate::proofs::Sendable::sendable_deletion))]
fn remove_rule(alloc: Global, xid: u32, rule: &Rule, out: &mut Vec<u8>) -> Result<(), AllocError>
    requires { IsServableRule rule.now }
    ensures bytes { OnOk result (out.new.items ≡ out.old.items ++ spelled (removing rule.now xid ∷ [])) }
    ensures err { OnErr result (out.new.items ≡ out.old.items) }
{
    let message = Message::FlowMod {
        xid,
        flow: flow_for(&rule.key),
        cookie: rule.cookie,
        command: DELETE_THAT_ONE,
        idle_timeout: 0,
        hard_timeout: 0,
        priority: PRIORITY,
        buffer_id: NO_BUFFER,
        out_port: reserved_port::NONE,
        flags: 0,
        actions: Actions::from_vec(Vec::new(alloc)),
    };
    encode(&message, out)
}

/// Appends the message that tells the ports of a match.
fn change_rule(alloc: Global, xid: u32, rule: &Rule, out: &mut Vec<u8>) -> Result<(), AllocError>
    requires { IsServableRule rule.now }
    ensures bytes { OnOk result (out.new.items ≡ out.old.items ++ spelled (changing rule.now xid ∷ [])) }
    ensures err { OnErr result (out.new.items ≡ out.old.items) }
{
    if rule.ports.is_empty() {
        remove_rule(alloc, xid, rule, out)
    } else {
        add_rule(alloc, xid, rule, out)
    }
}

/// Appends the messages that tell the rules, and answers the next xid. Where memory ran out some may have been appended.
fn change_rules(
    alloc: Global,
    xid: u32,
    rules: &[Rule],
    out: &mut Vec<u8>,
) -> Result<u32, AllocError>
    requires { All IsServableRule rules.now }
    ensures xid { IfOk result (λ x. x ≡ xid_behind xid (map changing rules.now)) }
    ensures bytes { OnOk result (out.new.items ≡ out.old.items ++ spelled_from xid (map changing rules.now)) }
    ensures grown { take (length out.old.items) out.new.items ≡ out.old.items }
{
    let mut xid = xid;
    for rule in rules {
        change_rule(alloc, xid, rule, out)?;
        xid = next(xid);
    }
    Ok(xid)
}

/// The message that sends a packet on.
fn packet_out(
    alloc: Global,
    xid: u32,
    buffer_id: u32,
    in_port: u16,
    outs: &[Out],
    body: &[u8],
) -> Result<Message, AllocError>
    requires { All IsServableOut outs.now }
    ensures { IfOk result (λ m. m ≡ PacketOut xid buffer_id in_port (map (out_action in_port) outs.now) body.now) }
{
    Ok(Message::PacketOut {
        xid,
        buffer_id,
        in_port,
        actions: out_actions(alloc, u64::from(in_port), outs)?,
        body: Body::from_vec(Vec::from_slice(alloc, body)?),
    })
}

/// Whether a packet that is sent on fits a message.
fn fits(outs: &[Out], body: &[u8]) -> bool
    ensures { result ≡ nat_lt (16 + (8 * length outs.now + length body.now)) 65536 }
{
    outs.len() < 8192 && body.len() < 65536 && 16 + (8 * outs.len() + body.len()) < 65536
}

/// Sends a packet on, where that fits a message, and answers the next xid. Where memory ran out nothing is appended.
#[tactic(auto, using(crate::proofs::Sendable::sendable_out))]
fn send_on(
    alloc: Global,
    xid: u32,
    buffer_id: u32,
    in_port: u16,
    outs: &[Out],
    body: &[u8],
    out: &mut Vec<u8>,
) -> Result<u32, AllocError>
    requires { All IsServableOut outs.now }
    ensures xid { IfOk result (λ x. x ≡ xid_behind xid (sending_on buffer_id in_port outs.now body.now)) }
    ensures bytes { OnOk result (out.new.items ≡ out.old.items ++ spelled_from xid (sending_on buffer_id in_port outs.now body.now)) }
    ensures err { OnErr result (out.new.items ≡ out.old.items) }
{
    if !fits(outs, body) {
        return Ok(xid);
    }
    let message = packet_out(alloc, xid, buffer_id, in_port, outs, body)?;
    encode(&message, out)?;
    Ok(next(xid))
}

/// Appends the message by which a packet goes on, if there is one, and answers the next xid. Where memory ran out nothing
/// is appended.
fn go_on(
    alloc: Global,
    xid: u32,
    buffer_id: u32,
    in_port: u16,
    body: &[u8],
    outs: &[Out],
    out: &mut Vec<u8>,
) -> Result<u32, AllocError>
    requires { All IsServableOut outs.now }
    ensures xid { IfOk result (λ x. x ≡ xid_behind xid (going_on buffer_id in_port body.now outs.now)) }
    ensures bytes { OnOk result (out.new.items ≡ out.old.items ++ spelled_from xid (going_on buffer_id in_port body.now outs.now)) }
    ensures err { OnErr result (out.new.items ≡ out.old.items) }
{
    if buffer_id != NO_BUFFER {
        return send_on(alloc, xid, buffer_id, in_port, outs, &[], out);
    }
    if outs.is_empty() {
        return Ok(xid);
    }
    send_on(alloc, xid, buffer_id, in_port, outs, body, out)
}

/// Appends the message that deletes every rule.
#[tactic(auto, using(crate::proofs::Sendable::sendable_deletion))]
fn clear(alloc: Global, xid: u32, out: &mut Vec<u8>) -> Result<(), AllocError>
    ensures bytes { OnOk result (out.new.items ≡ out.old.items ++ spelled (clearing xid ∷ [])) }
    ensures err { OnErr result (out.new.items ≡ out.old.items) }
{
    let message = Message::FlowMod {
        xid,
        flow: flow_match(ANY, 0, [0; 6], [0; 6]),
        cookie: 0,
        command: DELETE_ALL_THAT_FIT,
        idle_timeout: 0,
        hard_timeout: 0,
        priority: 0,
        buffer_id: NO_BUFFER,
        out_port: reserved_port::NONE,
        flags: 0,
        actions: Actions::from_vec(Vec::new(alloc)),
    };
    encode(&message, out)
}

/// Appends the message that makes packets come whole.
#[tactic(auto, using(crate::proofs::Sendable::sendable_config))]
fn configure(xid: u32, out: &mut Vec<u8>) -> Result<(), AllocError>
    ensures bytes { OnOk result (out.new.items ≡ out.old.items ++ spelled (configuring xid ∷ [])) }
    ensures err { OnErr result (out.new.items ≡ out.old.items) }
{
    let message = Message::SetConfig {
        xid,
        flags: 0,
        miss_send_len: 65535,
    };
    encode(&message, out)
}

/// Appends what a join is answered, and answers the next xid. Where memory ran out some may have been appended.
pub fn welcome(
    alloc: Global,
    xid: u32,
    rules: &[Rule],
    out: &mut Vec<u8>,
) -> Result<u32, AllocError>
    requires { All IsServableRule rules.now }
    ensures xid { IfOk result (λ x. x ≡ xid_behind xid (welcoming rules.now)) }
    ensures bytes { OnOk result (out.new.items ≡ out.old.items ++ spelled_from xid (welcoming rules.now)) }
    ensures grown { take (length out.old.items) out.new.items ≡ out.old.items }
{
    configure(xid, out)?;
    let second = next(xid);
    clear(alloc, second, out)?;
    change_rules(alloc, next(second), rules, out)
}

/// Appends what a packet is answered, and answers the next xid. Where memory ran out some may have been appended.
pub fn forward(
    alloc: Global,
    xid: u32,
    buffer_id: u32,
    in_port: u16,
    body: &[u8],
    reply: &Reply,
    out: &mut Vec<u8>,
) -> Result<u32, AllocError>
    requires { IsServable reply.now }
    ensures xid { IfOk result (λ x. x ≡ xid_behind xid (forwarding buffer_id in_port body.now reply.now)) }
    ensures bytes { OnOk result (out.new.items ≡ out.old.items ++ spelled_from xid (forwarding buffer_id in_port body.now reply.now)) }
    ensures grown { take (length out.old.items) out.new.items ≡ out.old.items }
{
    let after = change_rules(alloc, xid, reply.rules.as_slice(), out)?;
    let last = go_on(
        alloc,
        after,
        buffer_id,
        in_port,
        body,
        reply.outs.as_slice(),
        out,
    )?;
    Ok(last)
}
