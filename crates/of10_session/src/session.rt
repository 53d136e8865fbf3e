//! A session, and what it says to each message.

ghost use Rattle.std.specs.Prelude.{◌≡◌, ◌+◌, ◌<◌, ◌≤◌, ◌^◌, ◌≢◌, [], ◌∷◌, ◌++◌, length, take, IsTrue, ◌↔◌, OnOk, OnErr, IfOk};
ghost use Rattle.of10_wire.specs.Layout.{number};
ghost use Rattle.of10_msgs.specs.declared.message.Message.TheVariants.{Hello};
ghost use Rattle.of10_msgs.specs.Messages.{echoed};
ghost use Rattle.of10_msgs.specs.Sending.{IsSendable};
ghost use Rattle.of10_session.specs.Progresses.{fresh, in_phase, with_pending, drawn, ignoring, IsTalking, IsListening};
ghost use Rattle.of10_session.specs.Sessions.{spelled, turn, Makes, refuses_version, on_hello, on_features, arrives, on_packet, on_removed, on_news, is_expiry};
ghost use Rattle.of10_session.specs.Replies.{IsServable, answered, passed, drafts, xid_behind, spelled_from};

use crate::reply::{forward, next, welcome};
use crate::turn::{Ask, Turn, TurnEnd};
use byteorder::{BigEndian, ByteOrder};
use csdn_history::reply::Reply;
use of10_msgs::{Message, encode};
use of10_wire::{Body, FlowMatch, rest_from};
use std::alloc::{AllocError, Global};
use std::marker::Model;

/// How far a session has come.
#[derive(Clone, Copy, Debug, PartialEq, Eq)]
pub enum Phase {
    /// Nothing was said.
    New,
    /// HELLO was sent.
    Greet,
    /// The switch was asked what it is.
    Features,
    /// The switch said what it is.
    Serving,
    /// The session has ended.
    Over,
}

/// The ask that waits for its answer. A packet's buffer, port and bytes are kept for its reply.
pub enum Pending {
    Nothing,
    /// A switch joined.
    Joining,
    /// A packet came in.
    Arriving {
        buffer_id: u32,
        in_port: u16,
        body: Body,
    },
    /// A rule ended.
    Expiring,
}

// Each field is bound: a derived drop would be put in line wherever a session is held.
impl Drop for Pending {
    fn drop(self) {
        match self {
            Pending::Nothing => {}
            Pending::Joining => {}
            Pending::Arriving {
                buffer_id: _buffer_id,
                in_port: _in_port,
                body: _body,
            } => {}
            Pending::Expiring => {}
        }
    }
}

/// The controller's side of one session with a switch.
#[derive(Drop)]
pub struct Session {
    number: u32,
    phase: Phase,
    xid: u32,
    ignored: u64,
    datapath: u64,
    pending: Pending,
}

impl Model for Session {
    ghost use Rattle.of10_session.specs.Progresses.{Progress};

    ghost Value = { Progress };

    ghost view = { λ s. record { number = s.number; phase = s.phase; xid = s.xid; ignored = s.ignored; datapath = s.datapath; pending = s.pending } };
}

/// The number in the 6 bytes from a place on.
#[tactic(auto, unfolding(of10_wire::specs::Layout::number))]
fn u48_at(bytes: &[u8], at: usize) -> u64
    requires { at + 6 ≤ length bytes.now }
    ensures { result ≡ number 6 at bytes.now }
{
    BigEndian::read_u48(rest_from(bytes, at))
}

/// Whether a message tells that a rule of one port, source and destination ended after a time without packets.
fn is_expiry(flow: &FlowMatch, reason: u8) -> bool
    ensures { result ≡ is_expiry flow.now reason }
{
    reason == 0 && flow.wildcards & 0b1101 == 0
}

fn is_talking(phase: Phase) -> bool
    ensures { IsTrue result ↔ IsTalking phase }
{
    matches!(phase, Phase::Greet | Phase::Features | Phase::Serving)
}

fn is_free(pending: &Pending) -> bool
    ensures { IsTrue result ↔ (pending.now ≡ Pending.Nothing) }
{
    matches!(pending, Pending::Nothing)
}

impl Session {
    /// A session before its first message. It takes no memory.
    pub fn new(number: u32) -> Session
        ensures { result ≡ fresh number }
    {
        Session {
            number,
            phase: Phase::New,
            xid: 1,
            ignored: 0,
            datapath: 0,
            pending: Pending::Nothing,
        }
    }

    /// The session's number.
    pub fn number(&self) -> u32
        ensures { result ≡ self.now.number }
    {
        self.number
    }

    /// How many messages were ignored.
    pub fn ignored(&self) -> u64
        ensures { result ≡ self.now.ignored }
    {
        self.ignored
    }

    /// Whether the session takes a message: it has greeted, has not ended, and waits for no answer.
    pub fn is_listening(&self) -> bool
        ensures { IsTrue result ↔ IsListening self.now }
    {
        is_talking(self.phase) && is_free(&self.pending)
    }

    /// Whether an ask waits for its answer.
    pub fn is_asking(&self) -> bool
        ensures { IsTrue result ↔ (self.now.pending ≢ Pending.Nothing) }
    {
        !is_free(&self.pending)
    }

    fn ignore(&mut self) -> Turn
        requires { self.old.ignored + 1 < 2 ^ 64 }
        ensures session { self.new ≡ ignoring self.old }
        ensures answer { result ≡ Turn.Go }
    {
        self.ignored += 1;
        Turn::Go
    }

    fn break_off(&mut self) -> Turn
        ensures session { self.new ≡ in_phase self.old Phase.Over }
        ensures answer { result ≡ Turn.End TurnEnd.OutOfTurn }
    {
        self.phase = Phase::Over;
        Turn::End(TurnEnd::OutOfTurn)
    }

    fn ask(&mut self, ask: Ask, pending: Pending) -> Turn
        ensures session { self.new ≡ with_pending self.old pending }
        ensures answer { result ≡ Turn.Ask ask }
    {
        self.pending = pending;
        Turn::Ask(ask)
    }

    /// Appends HELLO, which is said before anything is read.
    ///
    /// # Errors
    ///
    /// Where memory ran out nothing has changed.
    #[tactic(auto, using(crate::proofs::Sendable::sendable_hello))]
    pub fn greet(&mut self, alloc: Global, out: &mut Vec<u8>) -> Result<(), AllocError>
        requires { self.old.phase ≡ Phase.New }
        ensures session { OnOk result (self.new ≡ in_phase (drawn self.old) Phase.Greet) }
        ensures bytes { OnOk result (out.new.items ≡ out.old.items ++ spelled (Hello self.old.xid 1 [] ∷ [])) }
        ensures err { OnErr result ((self.new ≡ self.old) × (out.new.items ≡ out.old.items)) }
    {
        let hello = Message::Hello {
            xid: self.xid,
            version: 1,
            body: Body::from_vec(Vec::new(alloc)),
        };
        encode(&hello, out)?;
        self.xid = next(self.xid);
        self.phase = Phase::Greet;
        Ok(())
    }

    #[tactic(auto, using(crate::proofs::Sendable::sendable_error))]
    fn refuse_version(&mut self, alloc: Global, out: &mut Vec<u8>) -> Result<Turn, AllocError>
        ensures turn { IfOk result (λ r. Makes (refuses_version self.old) r self.new out.old.items out.new.items) }
        ensures err { OnErr result ((self.new ≡ self.old) × (out.new.items ≡ out.old.items)) }
    {
        let error = Message::Error {
            xid: self.xid,
            kind: 0,
            code: 0,
            body: Body::from_vec(Vec::new(alloc)),
        };
        encode(&error, out)?;
        self.xid = next(self.xid);
        self.phase = Phase::Over;
        Ok(Turn::End(TurnEnd::Incompatible))
    }

    #[tactic(auto, using(crate::proofs::Sendable::sendable_request))]
    fn hello(&mut self, out: &mut Vec<u8>) -> Result<Turn, AllocError>
        requires { self.old.ignored + 1 < 2 ^ 64 }
        ensures turn { IfOk result (λ r. Makes (on_hello self.old.phase self.old) r self.new out.old.items out.new.items) }
        ensures err { OnErr result ((self.new ≡ self.old) × (out.new.items ≡ out.old.items)) }
    {
        match self.phase {
            Phase::Greet => {
                encode(&Message::FeaturesRequest { xid: self.xid }, out)?;
                self.xid = next(self.xid);
                self.phase = Phase::Features;
                Ok(Turn::Go)
            }
            _ => Ok(self.ignore()),
        }
    }

    #[tactic(auto, using(crate::proofs::Sendable::sendable_echo))]
    fn echo(request: Message, out: &mut Vec<u8>) -> Result<(), AllocError>
        requires { IsSendable request }
        ensures bytes { OnOk result (out.new.items ≡ out.old.items ++ spelled (echoed request ∷ [])) }
        ensures err { OnErr result (out.new.items ≡ out.old.items) }
    {
        encode(&request.into_echo_reply(), out)
    }

    fn features(&mut self, switch: u64) -> Turn
        requires { self.old.ignored + 1 < 2 ^ 64 }
        ensures session { self.new ≡ (on_features self.old.phase switch self.old).session }
        ensures answer { result ≡ (on_features self.old.phase switch self.old).turn }
    {
        match self.phase {
            Phase::Greet => self.break_off(),
            Phase::Features => {
                self.phase = Phase::Serving;
                self.datapath = switch;
                self.ask(Ask::Join { s: switch }, Pending::Joining)
            }
            _ => self.ignore(),
        }
    }

    fn packet(
        &mut self,
        alloc: Global,
        buffer_id: u32,
        in_port: u16,
        body: &[u8],
    ) -> Result<Turn, AllocError>
        requires { self.old.ignored + 1 < 2 ^ 64 }
        ensures session { OnOk result (self.new ≡ (on_packet self.old.phase buffer_id in_port body.now self.old).session) }
        ensures answer { IfOk result (λ r. r ≡ (on_packet self.old.phase buffer_id in_port body.now self.old).turn) }
        ensures err { OnErr result (self.new ≡ self.old) }
    {
        match self.phase {
            Phase::Greet => Ok(self.break_off()),
            Phase::Serving => {
                if body.len() < 12 {
                    return Ok(self.ignore());
                }
                let kept = Body::from_vec(Vec::from_slice(alloc, body)?);
                Ok(self.arrive(buffer_id, in_port, kept))
            }
            _ => Ok(self.ignore()),
        }
    }

    fn arrive(&mut self, buffer_id: u32, in_port: u16, body: Body) -> Turn
        requires { 12 ≤ length body }
        ensures session { self.new ≡ (arrives buffer_id in_port body self.old).session }
        ensures answer { result ≡ (arrives buffer_id in_port body self.old).turn }
    {
        let ask = Ask::Packet {
            s: self.datapath,
            a: u48_at(body.as_slice(), 6),
            b: u48_at(body.as_slice(), 0),
            i: u64::from(in_port),
        };
        let pending = Pending::Arriving {
            buffer_id,
            in_port,
            body,
        };
        self.ask(ask, pending)
    }

    fn removed(&mut self, flow: &FlowMatch, cookie: u64, reason: u8) -> Turn
        requires { self.old.ignored + 1 < 2 ^ 64 }
        ensures session { self.new ≡ (on_removed self.old.phase flow.now cookie reason self.old).session }
        ensures answer { result ≡ (on_removed self.old.phase flow.now cookie reason self.old).turn }
    {
        match self.phase {
            Phase::Greet => self.break_off(),
            Phase::Serving => {
                if !is_expiry(flow, reason) {
                    return self.ignore();
                }
                let ask = Ask::Expire {
                    s: self.datapath,
                    a: u48_at(&flow.dl_src, 0),
                    b: u48_at(&flow.dl_dst, 0),
                    i: u64::from(flow.in_port),
                    cookie,
                };
                self.ask(ask, Pending::Expiring)
            }
            _ => self.ignore(),
        }
    }

    fn news(&mut self) -> Turn
        requires { self.old.ignored + 1 < 2 ^ 64 }
        ensures session { self.new ≡ (on_news self.old.phase self.old).session }
        ensures answer { result ≡ (on_news self.old.phase self.old).turn }
    {
        match self.phase {
            Phase::Greet => self.break_off(),
            _ => self.ignore(),
        }
    }

    /// Takes a message: appends what is sent at once, and says what comes next. Of a packet that is asked about it keeps a
    /// copy of the bytes; else it takes memory for what is sent alone.
    ///
    /// # Errors
    ///
    /// Where memory ran out nothing has changed.
    #[tactic(auto, unfolding(crate::specs::Sessions::turn))]
    pub fn step(
        &mut self,
        alloc: Global,
        message: Message,
        out: &mut Vec<u8>,
    ) -> Result<Turn, AllocError>
        requires listening { IsListening self.old }
        requires room { self.old.ignored + 1 < 2 ^ 64 }
        requires sendable { IsSendable message }
        ensures turn { IfOk result (λ r. Makes (turn self.old message) r self.new out.old.items out.new.items) }
        ensures err { OnErr result ((self.new ≡ self.old) × (out.new.items ≡ out.old.items)) }
    {
        match message {
            Message::Hello { version: 0, .. } => self.refuse_version(alloc, out),
            Message::Hello { .. } => self.hello(out),
            Message::EchoRequest { .. } => {
                Session::echo(message, out)?;
                Ok(Turn::Go)
            }
            Message::Error { .. } | Message::EchoReply { .. } | Message::Vendor { .. } => {
                Ok(self.ignore())
            }
            Message::FeaturesReply { datapath_id, .. } => Ok(self.features(datapath_id)),
            Message::PacketIn {
                buffer_id,
                in_port,
                ref body,
                ..
            } => self.packet(alloc, buffer_id, in_port, body.as_slice()),
            Message::FlowRemoved {
                flow,
                cookie,
                reason,
                ..
            } => Ok(self.removed(&flow, cookie, reason)),
            Message::PortStatus { .. }
            | Message::BarrierReply { .. }
            | Message::GetConfigReply { .. }
            | Message::StatsReply { .. }
            | Message::QueueGetConfigReply { .. } => Ok(self.news()),
            _ => Ok(self.break_off()),
        }
    }

    /// Appends what the pending ask is answered, and answers the next xid. Where memory ran out some may have been
    /// appended.
    fn reply_to(&self, alloc: Global, reply: &Reply, out: &mut Vec<u8>) -> Result<u32, AllocError>
        requires servable { IsServable reply.now }
        ensures xid { IfOk result (λ x. x ≡ xid_behind self.now.xid (drafts self.now.pending reply.now)) }
        ensures bytes { OnOk result (out.new.items ≡ out.old.items ++ spelled_from self.now.xid (drafts self.now.pending reply.now)) }
        ensures grown { take (length out.old.items) out.new.items ≡ out.old.items }
    {
        match &self.pending {
            Pending::Nothing | Pending::Expiring => Ok(self.xid),
            Pending::Joining => welcome(alloc, self.xid, reply.rules.as_slice(), out),
            Pending::Arriving {
                buffer_id,
                in_port,
                body,
            } => forward(
                alloc,
                self.xid,
                *buffer_id,
                *in_port,
                body.as_slice(),
                reply,
                out,
            ),
        }
    }

    /// Takes the answer to the pending ask, and appends what is sent, at the cost of its bytes.
    ///
    /// # Errors
    ///
    /// Where memory ran out nothing has changed.
    #[tactic(auto, unfolding(crate::specs::Replies::answered))]
    pub fn answer(
        &mut self,
        alloc: Global,
        reply: &Reply,
        out: &mut Vec<u8>,
    ) -> Result<(), AllocError>
        requires pending { self.old.pending ≢ Pending.Nothing }
        requires servable { IsServable reply.now }
        ensures session { OnOk result (self.new ≡ (answered self.old reply.now).session) }
        ensures bytes { OnOk result (out.new.items ≡ out.old.items ++ spelled (answered self.old reply.now).sent) }
        ensures err { OnErr result ((self.new ≡ self.old) × (out.new.items ≡ out.old.items)) }
    {
        let before = out.len();
        match self.reply_to(alloc, reply, out) {
            Ok(xid) => {
                self.xid = xid;
                self.pending = Pending::Nothing;
                Ok(())
            }
            Err(error) => {
                out.truncate(before);
                Err(error)
            }
        }
    }

    /// Lets the pending ask go, and counts its message as ignored. It takes no memory.
    pub fn pass(&mut self)
        requires { self.old.ignored + 1 < 2 ^ 64 }
        ensures { self.new ≡ passed self.old }
    {
        self.ignored += 1;
        self.pending = Pending::Nothing;
    }
}
