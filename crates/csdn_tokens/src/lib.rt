//! Cuts a program's text into tokens.
//!
//! Blanks and comments stand between tokens and are left out. Each token knows the place of its first byte. The list
//! ends with a token of its own: `Stop` at the end of the text, or the first fault, behind which nothing is read. So a
//! reader of tokens meets a fault, or the end, as one more token that doesn't fit (docs/LANGUAGE.md, "Tokens").
#![tactic(auto)]

ghost use Rattle.std.specs.Prelude.{◌≡◌, ◌<◌, ◌≤◌, ◌+◌, length, map, slice_index, IfOk, MatchOption, true};
ghost use Rattle.std.specs.Str.Parse.{AllDigits, digits_value};
ghost use Rattle.csdn_tokens.specs.Lex as spec;

use sqlite_items::Items;
use std::alloc::{AllocError, Global};

/// The kinds of tokens: names, numbers, the reserved words, the symbols, and what can end the list.
#[derive(Clone, Copy, Debug, PartialEq, Eq)]
pub enum Kind {
    /// A word that isn't reserved.
    Name,
    Number,
    Static,
    Const,
    Rel,
    Topology,
    Safety,
    Trans,
    PktIn,
    Skip,
    If,
    Else,
    Pick,
    Where,
    Insert,
    Remove,
    Install,
    Uninstall,
    Forward,
    Flood,
    Timeout,
    Ft,
    Sent,
    RcvThis,
    Forall,
    Exists,
    Not,
    And,
    Or,
    True,
    False,
    Prt,
    Sw,
    Ho,
    Pr,
    /// `<->`
    Both,
    /// `->`
    Arrow,
    /// `(`
    Open,
    /// `)`
    Close,
    /// `{`
    Begin,
    /// `}`
    End,
    Comma,
    Semicolon,
    Colon,
    Dot,
    Equals,
    /// The end of the text.
    Stop,
    /// A word of more than 64 bytes; nothing behind it is read.
    BadName,
    /// A number that begins with 0 or isn't from 1 to 65,280; nothing behind it is read.
    BadNumber,
    /// A byte that begins no token; nothing behind it is read.
    BadByte,
}

/// A token.
#[derive(Drop)]
pub struct Token {
    pub kind: Kind,
    /// Where its first byte stands, in bytes from the beginning of the text.
    pub at: usize,
    /// The value of a number; 0 for other kinds.
    pub number: u16,
    /// The bytes of a name; empty for other kinds.
    pub text: Items<u8>,
}

/// What stands at the front of a text, and how many bytes it has.
#[derive(Clone, Copy)]
pub enum Piece {
    /// Blanks, or a comment.
    Blank(usize),
    /// A token of a kind, with its number and its length.
    Token(Kind, u16, usize),
    /// A fault, of the kind that names it.
    Bad(Kind),
}

/// The longest word, in bytes.
const LONGEST: usize = 64;

/// The greatest number.
const GREATEST: u32 = 65280;

/// The reserved words.
pub const RESERVED: [(&[u8], Kind); 33] = [
    (b"static", Kind::Static),
    (b"const", Kind::Const),
    (b"rel", Kind::Rel),
    (b"topology", Kind::Topology),
    (b"safety", Kind::Safety),
    (b"trans", Kind::Trans),
    (b"pktIn", Kind::PktIn),
    (b"skip", Kind::Skip),
    (b"if", Kind::If),
    (b"else", Kind::Else),
    (b"pick", Kind::Pick),
    (b"where", Kind::Where),
    (b"insert", Kind::Insert),
    (b"remove", Kind::Remove),
    (b"install", Kind::Install),
    (b"uninstall", Kind::Uninstall),
    (b"forward", Kind::Forward),
    (b"flood", Kind::Flood),
    (b"timeout", Kind::Timeout),
    (b"ft", Kind::Ft),
    (b"sent", Kind::Sent),
    (b"rcv_this", Kind::RcvThis),
    (b"forall", Kind::Forall),
    (b"exists", Kind::Exists),
    (b"not", Kind::Not),
    (b"and", Kind::And),
    (b"or", Kind::Or),
    (b"true", Kind::True),
    (b"false", Kind::False),
    (b"prt", Kind::Prt),
    (b"SW", Kind::Sw),
    (b"HO", Kind::Ho),
    (b"PR", Kind::Pr),
];

/// The classes of bytes that runs are made of.
#[derive(Clone, Copy)]
enum Class {
    Blank,
    Digit,
    Word,
    /// All but the end of a line.
    Line,
}

fn is_in(class: Class, b: u8) -> bool
    ensures { result ≡ spec.is_in class b }
{
    match class {
        Class::Blank => b == b' ' || b == b'\t' || b == b'\n' || b == b'\r',
        Class::Digit => b.is_ascii_digit(),
        Class::Word => b.is_ascii_alphanumeric() || b == b'_',
        Class::Line => b != b'\n',
    }
}

/// The byte at a place; 0 behind the end.
fn byte(text: &[u8], at: usize) -> u8
    ensures { result ≡ slice_index text.now at }
{
    if at < text.len() { text[at] } else { 0 }
}

/// The length of the front whose bytes are of the class.
fn front(class: Class, text: &[u8]) -> usize
    ensures value { result ≡ spec.front class text.now }
    ensures within { result ≤ length text.now }
    ensures moves { spec.is_in class (slice_index text.now 0) ≡ true → 0 < length text.now → 0 < result }
{
    let mut len = 0;
    while len < text.len() && is_in(class, text[len]) {
        len += 1;
    }
    len
}

fn lookup(mut table: &[(&[u8], Kind)], word: &[u8]) -> Kind
    ensures { result ≡ spec.lookup (map (λ k. (k.0.now, k.1)) table.entry.now) word.now }
{
    while let [entry, rest @ ..] = table {
        if *entry.0 == *word {
            return entry.1;
        }
        table = rest;
    }
    Kind::Name
}

#[tactic(auto, unfolding(crate::specs::Lex::word_kind))]
fn word_kind(word: &[u8]) -> Kind
    ensures { result ≡ spec.word_kind word.now }
{
    lookup(&RESERVED, word)
}

fn word(text: &[u8]) -> Piece
    requires word { spec.is_in Class.Word (slice_index text.now 0) ≡ true }
    requires some { 0 < length text.now }
    ensures value { result ≡ spec.word text.now }
    ensures within { spec.IsPiece (length text.now) result }
{
    let len = front(Class::Word, text);
    if len > LONGEST {
        return Piece::Bad(Kind::BadName);
    }
    Piece::Token(word_kind(&text[..len]), 0, len)
}

/// The number that the digits write; none above the greatest.
fn value(mut digits: &[u8]) -> Option<u16>
    requires { AllDigits 10 digits.now }
    ensures { MatchOption result (65280 < digits_value 10 digits.entry.now) (λ n. (n ≡ digits_value 10 digits.entry.now) × (n ≤ 65280)) }
{
    let mut value: u32 = 0;
    while let [digit, rest @ ..] = digits {
        value = value * 10 + (*digit - b'0') as u32;
        if value > GREATEST {
            return None;
        }
        digits = rest;
    }
    Some(value as u16)
}

fn number(text: &[u8]) -> Piece
    requires digit { spec.is_in Class.Digit (slice_index text.now 0) ≡ true }
    requires some { 0 < length text.now }
    ensures value { result ≡ spec.number text.now }
    ensures within { spec.IsPiece (length text.now) result }
{
    let len = front(Class::Digit, text);
    if text[0] == b'0' {
        return Piece::Bad(Kind::BadNumber);
    }
    match value(&text[..len]) {
        Some(number) => Piece::Token(Kind::Number, number, len),
        None => Piece::Bad(Kind::BadNumber),
    }
}

fn symbol(text: &[u8]) -> Piece
    requires { 0 < length text.now }
    ensures value { result ≡ spec.symbol text.now }
    ensures within { spec.IsPiece (length text.now) result }
{
    match text[0] {
        b'<' if byte(text, 1) == b'-' && byte(text, 2) == b'>' => Piece::Token(Kind::Both, 0, 3),
        b'-' if byte(text, 1) == b'>' => Piece::Token(Kind::Arrow, 0, 2),
        b'(' => Piece::Token(Kind::Open, 0, 1),
        b')' => Piece::Token(Kind::Close, 0, 1),
        b'{' => Piece::Token(Kind::Begin, 0, 1),
        b'}' => Piece::Token(Kind::End, 0, 1),
        b',' => Piece::Token(Kind::Comma, 0, 1),
        b';' => Piece::Token(Kind::Semicolon, 0, 1),
        b':' => Piece::Token(Kind::Colon, 0, 1),
        b'.' => Piece::Token(Kind::Dot, 0, 1),
        b'=' => Piece::Token(Kind::Equals, 0, 1),
        _ => Piece::Bad(Kind::BadByte),
    }
}

/// What stands at the front.
#[tactic(auto, unfolding(crate::specs::Lex::piece))]
fn piece_at(text: &[u8]) -> Piece
    requires { 0 < length text.now }
    ensures value { result ≡ spec.piece text.now }
    ensures within { spec.IsPiece (length text.now) result }
{
    let first = text[0];
    if is_in(Class::Blank, first) {
        Piece::Blank(front(Class::Blank, text))
    } else if first == b'/' && byte(text, 1) == b'/' {
        Piece::Blank(front(Class::Line, text))
    } else if is_in(Class::Digit, first) {
        number(text)
    } else if first.is_ascii_alphabetic() {
        word(text)
    } else {
        symbol(text)
    }
}

impl Token {
    /// The token of a kind at a place, with its number and the bytes that it is made of.
    fn new(
        alloc: Global,
        kind: Kind,
        at: usize,
        number: u16,
        bytes: &[u8],
    ) -> Result<Token, AllocError>
        ensures { IfOk result (λ t. t ≡ spec.token_at kind at number bytes.now) }
    {
        let text = match kind {
            Kind::Name => Items::from_slice(alloc, bytes)?,
            _ => Items::new(alloc),
        };
        Ok(Token {
            kind,
            at,
            number,
            text,
        })
    }
}

/// The tokens of the text, up to its end or a fault. The last one is the end or the fault.
pub fn tokens(alloc: Global, text: &[u8]) -> Result<Vec<Token>, AllocError>
    ensures { IfOk result (λ found. spec.Lexes 0 text.now found.items) }
{
    let mut found = Vec::new(alloc);
    let mut at = 0;
    'pieces: while at < text.len() {
        let rest = &text[at..];
        match piece_at(rest) {
            Piece::Blank(len) => at += len,
            Piece::Token(kind, number, len) => {
                let next = Token::new(alloc, kind, at, number, &rest[..len])?;
                found.push(next)?;
                at += len;
            }
            Piece::Bad(kind) => {
                let fault = Token::new(alloc, kind, at, 0, &[])?;
                found.push(fault)?;
                return Ok(found);
            }
        }
    }
    let end = Token::new(alloc, Kind::Stop, at, 0, &[])?;
    found.push(end)?;
    Ok(found)
}
