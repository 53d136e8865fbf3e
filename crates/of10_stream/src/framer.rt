//! Frames from the pieces of a stream.

ghost use Rattle.std.specs.Prelude.{◌≡◌, ◌≢◌, ◌↔◌, ◌+◌, ◌-◌, ◌≤◌, ◌<◌, ◌^◌, [], ◌++◌, length, take, min, true, IfOk, IfErr, IsTrue};
ghost use Rattle.of10_wire.specs.declared.refusal.WireWhy.TheVariants.{Memory};
ghost use Rattle.of10_stream.specs.Framings.{framing, IsOpen, IsReady, Takes, IsRefusedAt};

use of10_wire::{Opening, WireWhy, opening_of, rest_from, u16_at};
use std::alloc::{AllocError, Global};
use std::marker::Model;

/// The longest frame.
const MOST: usize = 65_535;

/// What was done with a piece: how many of its bytes were taken, and whether a frame is whole now.
#[derive(Clone, Copy, Debug, PartialEq, Eq)]
pub struct Fed {
    pub used: usize,
    pub ready: bool,
}

/// A header that is refused, at its place in the stream.
#[derive(Clone, Copy, Debug, PartialEq, Eq)]
pub struct FrameRefusal {
    pub at: u64,
    pub why: WireWhy,
}

/// Puts together one frame at a time, in 65,535 bytes that it takes once: no frame has more.
#[derive(Drop)]
pub struct Framer {
    buffer: Vec<u8>,
    len: usize,
    start: u64,
    ended: bool,
}

impl Model for Framer {
    ghost use Rattle.std.specs.Prelude.{◌≡◌, ◌≤◌, length, take};
    ghost use Rattle.of10_stream.specs.Framings.{Framing};

    ghost Value = { Framing };

    ghost view = { λ f. record { start = f.start; held = take f.len f.buffer.items; ended = f.ended } };

    ghost invariant = { λ f. (length f.buffer.items ≡ 65535) × (f.len ≤ 65535) };
}

/// Copies the piece to a place of the buffer. One byte is copied without a call.
fn put(buffer: &mut [u8], at: usize, piece: &[u8])
    requires { at + length piece.now ≤ length buffer.old }
    ensures { take (at + length piece.now) buffer.new ≡ take at buffer.old ++ piece.now }
{
    match piece {
        [byte] => buffer[at] = *byte,
        _ => buffer[at..at + piece.len()].copy_from_slice(piece),
    }
}

impl Framer {
    /// A framer before the stream's first byte. It takes 65,535 bytes of memory.
    pub fn try_new(alloc: Global) -> Result<Framer, AllocError>
        ensures first { IfOk result (λ f. f ≡ framing 0 []) }
        ensures open { IfOk result IsOpen }
    {
        let buffer = vec![in alloc; 0; MOST]?;
        Ok(Framer {
            buffer,
            len: 0,
            start: 0,
            ended: false,
        })
    }

    /// Takes bytes of the piece until it holds `most`, and says how many.
    fn take_up_to(&mut self, most: usize, piece: &[u8]) -> usize
        requires { most ≤ 65535 }
        ensures used { result ≡ min (length piece.now) (most - length self.old.held) }
        ensures held { self.new.held ≡ self.old.held ++ take result piece.now }
        ensures same { (self.new.start ≡ self.old.start) × (self.new.ended ≡ self.old.ended) }
    {
        let used = piece.len().min(most.saturating_sub(self.len));
        put(&mut self.buffer, self.len, &piece[..used]);
        self.len += used;
        used
    }

    /// How many bytes of the frame have come.
    fn len(&self) -> usize
        ensures { result ≡ length self.now.held }
    {
        self.len
    }

    /// What has come of the frame.
    fn held(&self) -> &[u8]
        ensures { result.now ≡ self.now.held }
    {
        &self.buffer[..self.len]
    }

    /// Takes no more bytes. What it holds stays.
    pub fn end(&mut self)
        ensures { self.new ≡ record { start = self.old.start; held = self.old.held; ended = true } }
    {
        self.ended = true;
    }

    /// Whether it holds no byte of a frame.
    pub fn is_empty(&self) -> bool
        ensures { IsTrue result ↔ (self.now.held ≡ []) }
    {
        self.len == 0
    }

    /// Where the frame begins that comes next, or has come in part.
    pub fn start(&self) -> u64
        ensures { result ≡ self.now.start }
    {
        self.start
    }

    /// Takes bytes of a frame whose header has come.
    fn take_body(&mut self, piece: &[u8]) -> Fed
        requires open { IsOpen self.old }
        requires headed { 8 ≤ length self.old.held }
        ensures { Takes self.old piece.now self.new result }
    {
        let len = usize::from(u16_at(self.held(), 2));
        let used = self.take_up_to(len, piece);
        Fed {
            used,
            ready: self.len() == len,
        }
    }

    /// Takes bytes of the piece until a frame is whole or the piece is used up.
    ///
    /// # Errors
    ///
    /// The header's refusal, as soon as its eighth byte is taken. The framer has then ended.
    pub fn feed(&mut self, piece: &[u8]) -> Result<Fed, FrameRefusal>
        requires open { IsOpen self.old }
        requires room { (self.old.start + length self.old.held) + length piece.now < 2 ^ 64 }
        ensures taken { IfOk result (Takes self.old piece.now self.new) }
        // The header that is refused is the first thing in what has come.
        ensures refused { IfErr result (IsRefusedAt self.old.start (self.old.held ++ piece.now)) }
        ensures ended { IfErr result (λ e. self.new.ended ≡ true) }
        ensures named { IfErr result (λ e. e.why ≢ Memory) }
    {
        if self.len() >= 8 {
            return Ok(self.take_body(piece));
        }
        let head = self.take_up_to(8, piece);
        if self.len() < 8 {
            return Ok(Fed {
                used: head,
                ready: false,
            });
        }
        match opening_of(self.held()) {
            Opening::Refused(refusal) => {
                let at = self.start() + refusal.at as u64;
                self.end();
                Err(FrameRefusal {
                    at,
                    why: refusal.why,
                })
            }
            Opening::Frame(_) => Ok(Fed {
                used: head,
                ready: true,
            }),
            Opening::Wants(_) => {
                let body = self.take_body(rest_from(piece, head));
                Ok(Fed {
                    used: head + body.used,
                    ready: body.ready,
                })
            }
        }
    }

    /// The frame that is ready.
    pub fn frame(&self) -> &[u8]
        requires { IsReady self.now }
        ensures frame { result.now ≡ self.now.held }
        ensures short { length self.now.held ≤ 65535 }
    {
        &self.buffer[..self.len]
    }

    /// Lets the frame go, so that bytes may be fed again.
    pub fn next(&mut self)
        requires ready { IsReady self.old }
        requires room { self.old.start + length self.old.held < 2 ^ 64 }
        ensures behind { self.new ≡ framing (self.old.start + length self.old.held) [] }
        ensures open { IsOpen self.new }
    {
        self.start += self.len as u64;
        self.len = 0;
    }

    /// Lets a frame of so many bytes go by, which was read where it stands.
    pub fn pass(&mut self, width: usize)
        requires open { IsOpen self.old }
        requires none { self.old.held ≡ [] }
        requires room { self.old.start + width < 2 ^ 64 }
        ensures behind { self.new ≡ framing (self.old.start + width) [] }
        ensures open { IsOpen self.new }
    {
        self.start += width as u64;
    }
}
