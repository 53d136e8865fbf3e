//! Why a line of a network text is refused.

/// Why a line is refused. Of several reasons in one line the first in this order counts.
#[derive(Clone, Copy, Debug, PartialEq, Eq)]
pub enum NetWhy {
    /// The first line isn't `vericon-net 1`.
    Header,
    /// Another first word, a wrong order, a wrong number of words on a line that names no relation, a constant twice.
    Shape,
    /// A word that should be an element isn't.
    Number,
    /// No such constant, or no relation of that kind.
    Name,
    /// Another number of elements than the relation has.
    Arity,
    /// A sort line without elements.
    Empty,
    /// An element twice in a sort line.
    Repeated,
    /// The `pr` line lacks a port that the program names.
    NoPort,
    /// An element that isn't of its sort.
    Stranger,
    /// A constant has no value at `end`, or `end` is missing.
    Missing,
}

/// Why a line isn't taken.
pub type Stop = text_lines::Stop<NetWhy>;
