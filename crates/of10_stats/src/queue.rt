//! The queues of a port.

ghost use Rattle.std.specs.Prelude.{◌≡◌, ◌≤◌, length, false};
ghost use Rattle.of10_wire.specs.Layout.{number};
ghost use Rattle.of10_stats.specs.Queues.{property_slots, is_no_property, IsProperProperty, RefusesProperty, queue_slots, is_no_queue, IsProperQueue, RefusesQueue};

use of10_wire::{
    Body, Item, Part, WireRefusal, WireWhy, are_proper, body_at, capped, items_at, len_all,
    put_all, put_bytes, put_other_u16, put_pad, put_u16, put_u32, u16_at, u32_at,
};
use sqlite_items::Items;
use std::alloc::Global;

/// A property of a queue (OpenFlow Switch Specification 1.0.0, section 5.2.2).
pub enum QueueProperty {
    /// The rate that is always there for the queue, in tenths of a percent.
    MinRate { rate: u16 },
    /// A property of another kind than 1, which is MIN_RATE's.
    Other { kind: u16, body: Body },
}

impl Drop for QueueProperty {
    fn drop(self) {
        match self {
            QueueProperty::MinRate { rate: _rate } => {}
            QueueProperty::Other {
                kind: _kind,
                body: _body,
            } => {}
        }
    }
}

/// A list of properties. Contracts see it as a list.
pub type Properties = Items<QueueProperty>;

/// A queue of a port (section 5.2.2, `ofp_packet_queue`).
pub struct Queue {
    pub queue_id: u32,
    pub properties: Properties,
}

impl Drop for Queue {
    fn drop(self) {
        let Queue {
            queue_id: _queue_id,
            properties: _properties,
        } = self;
    }
}

/// A list of queues. Contracts see it as a list.
pub type Queues = Items<Queue>;

/// Whether no property begins these bytes.
#[tactic(auto, unfolding(crate::specs::Queues::is_no_property))]
fn is_no_property(bytes: &[u8]) -> bool
    ensures exact { result ≡ is_no_property bytes.now }
    ensures room { result ≡ false → (8 ≤ number 2 2 bytes.now) × (number 2 2 bytes.now ≤ length bytes.now) }
{
    if bytes.len() < 8 {
        return true;
    }
    let len = u16_at(bytes, 2) as usize;
    let allowed = if u16_at(bytes, 0) == 1 {
        len == 16
    } else {
        len >= 8
    };
    !allowed || bytes.len() < len
}

impl Item for QueueProperty {
    ghost refuses = { RefusesProperty };

    #[tactic(auto, unfolding(of10_wire::specs::Layout::Stand, crate::specs::Queues::property_slots, crate::specs::Queues::is_no_property))]
    fn read_first(
        alloc: Global,
        bytes: &[u8],
        place: usize,
    ) -> Result<(QueueProperty, usize), WireRefusal> {
        if is_no_property(bytes) {
            return Err(WireRefusal {
                at: place,
                why: WireWhy::BadProperty,
            });
        }
        let len = u16_at(bytes, 2) as usize;
        let kind = u16_at(bytes, 0);
        if kind == 1 {
            let rate = u16_at(bytes, 8);
            return Ok((QueueProperty::MinRate { rate }, len));
        }
        let body = body_at(alloc, bytes, 8, len)?;
        Ok((QueueProperty::Other { kind, body }, len))
    }
}

impl Part for QueueProperty {
    ghost slots = { property_slots };

    ghost proper = { IsProperProperty };

    #[tactic(auto, unfolding(crate::specs::Queues::property_slots))]
    fn len(&self) -> usize {
        match self {
            QueueProperty::MinRate { .. } => 16,
            QueueProperty::Other { body, .. } => capped(8 + capped(body.len())),
        }
    }

    fn is_proper(&self) -> bool {
        match self {
            QueueProperty::MinRate { .. } => true,
            QueueProperty::Other { kind, .. } => *kind != 1,
        }
    }

    #[tactic(auto, unfolding(crate::specs::Queues::property_slots))]
    fn put(&self, out: &mut Vec<u8>) {
        match self {
            QueueProperty::MinRate { rate } => {
                put_u16(out, 1);
                put_u16(out, 16);
                put_pad::<4>(out);
                put_u16(out, *rate);
                put_pad::<6>(out);
            }
            QueueProperty::Other { kind, body } => {
                put_other_u16(out, 1, *kind);
                put_u16(out, (8 + body.len()) as u16);
                put_pad::<4>(out);
                put_bytes(out, body.as_slice());
            }
        }
    }
}

/// Whether no queue begins these bytes.
#[tactic(auto, unfolding(crate::specs::Queues::is_no_queue))]
fn is_no_queue(bytes: &[u8]) -> bool
    ensures exact { result ≡ is_no_queue bytes.now }
    ensures room { result ≡ false → (8 ≤ number 2 4 bytes.now) × (number 2 4 bytes.now ≤ length bytes.now) }
{
    if bytes.len() < 8 {
        return true;
    }
    let len = u16_at(bytes, 4) as usize;
    len < 8 || bytes.len() < len
}

impl Item for Queue {
    ghost refuses = { RefusesQueue };

    #[tactic(auto, unfolding(of10_wire::specs::Layout::Stand, crate::specs::Queues::queue_slots))]
    fn read_first(
        alloc: Global,
        bytes: &[u8],
        place: usize,
    ) -> Result<(Queue, usize), WireRefusal> {
        if is_no_queue(bytes) {
            return Err(WireRefusal {
                at: place,
                why: WireWhy::BadProperty,
            });
        }
        let len = u16_at(bytes, 4) as usize;
        let properties = items_at(alloc, bytes, 8, len, place)?;
        let queue = Queue {
            queue_id: u32_at(bytes, 0),
            properties,
        };
        Ok((queue, len))
    }
}

impl Part for Queue {
    ghost slots = { queue_slots };

    ghost proper = { IsProperQueue };

    #[tactic(auto, unfolding(crate::specs::Queues::queue_slots))]
    fn len(&self) -> usize {
        capped(8 + len_all(self.properties.as_slice()))
    }

    fn is_proper(&self) -> bool {
        are_proper(self.properties.as_slice())
    }

    #[tactic(auto, unfolding(crate::specs::Queues::queue_slots))]
    fn put(&self, out: &mut Vec<u8>) {
        let properties = self.properties.as_slice();
        put_u32(out, self.queue_id);
        put_u16(out, (8 + len_all(properties)) as u16);
        put_pad::<2>(out);
        put_all(out, properties);
    }
}
