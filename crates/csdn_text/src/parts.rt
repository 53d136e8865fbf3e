//! What stands for parts of the grammar for which the tree has no node of their own.
ghost use Rattle.std.specs.Prelude.{◌≡◌};
ghost use Rattle.csdn_text.specs.Grammar as grammar;

use csdn_tokens::Kind;
use csdn_tree::names::{RawName, RawTerm, RawTerms};
use csdn_tree::syntax::{
    ChangeWord, Connective, FlowWord, RawCommand, RawFlow, RawFormula, RawPacket, SwitchWord,
};

/// The kind of the word between two formulas.
pub fn kind_of(word: Connective) -> Kind
    ensures { result ≡ grammar.kind_of word }
{
    match word {
        Connective::And => Kind::And,
        Connective::Or => Kind::Or,
        Connective::Implies => Kind::Arrow,
        Connective::Iff => Kind::Both,
    }
}

/// `(source -> target, ingress -> egress)`.
pub struct FlowTerms {
    pub source: RawTerm,
    pub target: RawTerm,
    pub ingress: RawTerm,
    pub egress: RawTerm,
}

impl Drop for FlowTerms {
    fn drop(self) {
        let FlowTerms {
            source: _source,
            target: _target,
            ingress: _ingress,
            egress: _egress,
        } = self;
    }
}

impl FlowTerms {
    /// These terms behind a switch.
    fn flow_of(self, switch: RawName) -> RawFlow
        ensures { result ≡ grammar.flow_of switch self }
    {
        let FlowTerms {
            source,
            target,
            ingress,
            egress,
        } = self;
        RawFlow {
            switch,
            source,
            target,
            ingress,
            egress,
        }
    }
}

/// `(source -> target, ingress)`.
pub struct PacketTerms {
    pub source: RawTerm,
    pub target: RawTerm,
    pub ingress: RawTerm,
}

impl Drop for PacketTerms {
    fn drop(self) {
        let PacketTerms {
            source: _source,
            target: _target,
            ingress: _ingress,
        } = self;
    }
}

impl PacketTerms {
    /// These terms behind a switch.
    fn packet_of(self, switch: RawName) -> RawPacket
        ensures { result ≡ grammar.packet_of switch self }
    {
        let PacketTerms {
            source,
            target,
            ingress,
        } = self;
        RawPacket {
            switch,
            source,
            target,
            ingress,
        }
    }
}

/// What stands behind the name with which an atom begins.
pub enum AtomRest {
    /// `(terms)`
    Row(RawTerms),
    /// `= term`
    Same(RawTerm),
    /// `.ft(..)` or `.sent(..)`, with the place of that word.
    Flow(usize, FlowWord, FlowTerms),
    /// `.rcv_this(..)`, with the place of that word.
    RcvThis(usize, PacketTerms),
}

impl Drop for AtomRest {
    fn drop(self) {
        match self {
            AtomRest::Row(_terms) => {}
            AtomRest::Same(_term) => {}
            AtomRest::Flow(_at, _word, _terms) => {}
            AtomRest::RcvThis(_at, _terms) => {}
        }
    }
}

impl AtomRest {
    /// The atom of a name and what stands behind it.
    pub fn atom_of(self, name: RawName) -> RawFormula
        ensures { result ≡ grammar.atom_of name self }
    {
        match self {
            AtomRest::Row(terms) => RawFormula::Atom(name, terms),
            AtomRest::Same(term) => RawFormula::Same(RawTerm::Name(name), term),
            AtomRest::Flow(at, word, terms) => RawFormula::Flow(at, word, terms.flow_of(name)),
            AtomRest::RcvThis(at, terms) => RawFormula::RcvThis(at, terms.packet_of(name)),
        }
    }
}

/// What is done with the name with which a command begins.
pub enum Action {
    Change(ChangeWord, RawTerms),
    Switch(SwitchWord, FlowTerms),
    Flood(PacketTerms),
}

impl Drop for Action {
    fn drop(self) {
        match self {
            Action::Change(_word, _terms) => {}
            Action::Switch(_word, _terms) => {}
            Action::Flood(_terms) => {}
        }
    }
}

impl Action {
    /// The command of a name and what is done with it.
    pub fn command_of(self, name: RawName) -> RawCommand
        ensures { result ≡ grammar.command_of name self }
    {
        match self {
            Action::Change(word, terms) => RawCommand::Change(word, name, terms),
            Action::Switch(word, terms) => RawCommand::Switch(word, terms.flow_of(name)),
            Action::Flood(terms) => RawCommand::Flood(terms.packet_of(name)),
        }
    }
}
