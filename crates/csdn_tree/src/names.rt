//! Names and terms of texts.
use sqlite_items::Items;

/// The bytes of a name.
pub type Text = Items<u8>;

/// A name, and where its first byte stands, counted from 0 at the beginning of the text.
pub struct RawName {
    pub at: usize,
    pub text: Text,
}

impl Drop for RawName {
    fn drop(self) {
        let RawName {
            at: _at,
            text: _text,
        } = self;
    }
}

/// `prt(number)`, and where its word `prt` stands.
#[derive(Clone, Copy, Debug, PartialEq, Eq)]
pub struct RawNumeral {
    pub at: usize,
    /// From 1 to 65,280.
    pub number: u16,
}

/// A term of a text: the name of a variable or a constant, or `prt(number)`.
pub enum RawTerm {
    Name(RawName),
    Port(RawNumeral),
}

impl Drop for RawTerm {
    fn drop(self) {
        match self {
            RawTerm::Name(_name) => {}
            RawTerm::Port(_port) => {}
        }
    }
}

/// Terms between one pair of parentheses, in their order.
pub type RawTerms = Items<RawTerm>;

impl RawTerm {
    ghost use Rattle.csdn_tree.specs.Places.{place};
    ghost use Rattle.std.specs.Prelude.{◌≡◌};

    /// Where its first byte stands.
    pub fn at(&self) -> usize
        ensures { result ≡ place self.now }
    {
        match self {
            RawTerm::Name(name) => name.at,
            RawTerm::Port(numeral) => numeral.at,
        }
    }
}
