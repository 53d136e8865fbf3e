//! How long the frames of each type are.

ghost use Rattle.std.specs.Prelude.{◌≡◌, ◌≤◌};
ghost use Rattle.of10_msgs.specs.Lengths.{lengths_of, least, allows};

use of10_wire::message_type;

/// How long the frames of one type are.
#[derive(Clone, Copy)]
pub enum Lengths {
    /// So many bytes.
    Exactly(usize),
    /// So many, and behind them bytes or parts that tell their own lengths.
    AtLeast(usize),
    /// So many, and behind them a whole number of ports.
    Ports(usize),
}

/// How long the frames of this type are.
pub fn lengths_of(kind: u8) -> Lengths
    ensures lengths { result ≡ lengths_of kind }
    ensures small { least result ≤ 88 }
{
    match kind {
        message_type::FEATURES_REQUEST
        | message_type::GET_CONFIG_REQUEST
        | message_type::BARRIER_REQUEST
        | message_type::BARRIER_REPLY => Lengths::Exactly(8),
        message_type::GET_CONFIG_REPLY
        | message_type::SET_CONFIG
        | message_type::QUEUE_GET_CONFIG_REQUEST => Lengths::Exactly(12),
        message_type::FLOW_REMOVED => Lengths::Exactly(88),
        message_type::PORT_STATUS => Lengths::Exactly(64),
        message_type::PORT_MOD => Lengths::Exactly(32),
        message_type::ERROR
        | message_type::VENDOR
        | message_type::STATS_REQUEST
        | message_type::STATS_REPLY => Lengths::AtLeast(12),
        message_type::FEATURES_REPLY => Lengths::Ports(32),
        message_type::PACKET_IN => Lengths::AtLeast(18),
        message_type::PACKET_OUT | message_type::QUEUE_GET_CONFIG_REPLY => Lengths::AtLeast(16),
        message_type::FLOW_MOD => Lengths::AtLeast(72),
        _ => Lengths::AtLeast(8),
    }
}

impl Lengths {
    /// How many bytes each frame has.
    pub fn least(self) -> usize
        ensures { result ≡ least self }
    {
        match self {
            Lengths::Exactly(least) => least,
            Lengths::AtLeast(least) => least,
            Lengths::Ports(least) => least,
        }
    }

    /// Whether a frame may have so many bytes.
    pub fn allows(self, len: usize) -> bool
        ensures { result ≡ allows self len }
    {
        match self {
            Lengths::Exactly(least) => len == least,
            Lengths::AtLeast(least) => len >= least,
            Lengths::Ports(least) => len >= least && (len - least) % 48 == 0,
        }
    }
}
