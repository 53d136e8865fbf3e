//! Commands.
ghost use Rattle.std.specs.Prelude.{◌≡◌, ◌+◌, ◌≤◌, length, OnOk};
ghost use Rattle.csdn_text.specs.Symbols.{here, part, block, commands, command, branch, choice, otherwise, action};
ghost use Rattle.csdn_text.specs.Machine.{Parses, limit};

use crate::TextRefusal;
use crate::build::{branching, choosing, followed};
use crate::parser::Parser;
use crate::parts::Action;
use csdn_tokens::Kind;
use csdn_tree::syntax::{ChangeWord, RawCommand, SwitchWord};
use std::alloc::Global;

impl<'a> Parser<'a> {
    /// `{commands}`.
    #[cycle(command)]
    pub fn block(&mut self, alloc: Global, depth: usize) -> Result<RawCommand, TextRefusal>
        requires { depth ≤ limit }
        ensures parses { Parses depth (part block here) self.old self.new result }
        ensures shorter { OnOk result (length self.new + 1 ≤ length self.old) }
    {
        self.take(Kind::Begin, depth + 1)?;
        let body = self.commands(alloc, depth + 1)?;
        self.take(Kind::End, depth + 1)?;
        Ok(body)
    }

    /// Commands, one after another. They may stand one too deep: then the first token is refused.
    #[cycle(command)]
    pub fn commands(&mut self, alloc: Global, depth: usize) -> Result<RawCommand, TextRefusal>
        requires { depth ≤ limit + 1 }
        ensures parses { Parses depth (part commands here) self.old self.new result }
        ensures shorter { OnOk result (length self.new + 1 ≤ length self.old) }
        ensures within { OnOk result (depth ≤ limit) }
    {
        let first = self.command(alloc, depth)?;
        if !self.begins_command() {
            return Ok(first);
        }
        let rest = self.commands(alloc, depth + 1)?;
        let whole = followed(alloc, first, rest)?;
        Ok(whole)
    }

    /// A command.
    #[cycle(command)]
    pub fn command(&mut self, alloc: Global, depth: usize) -> Result<RawCommand, TextRefusal>
        requires { depth ≤ limit + 1 }
        ensures parses { Parses depth (part command here) self.old self.new result }
        ensures shorter { OnOk result (length self.new + 1 ≤ length self.old) }
        ensures within { OnOk result (depth ≤ limit) }
    {
        if self.next_is(Kind::Skip) {
            self.take(Kind::Skip, depth)?;
            self.take(Kind::Semicolon, depth)?;
            Ok(RawCommand::Skip)
        } else if self.begins(Kind::If) {
            let whole = self.branch(alloc, depth)?;
            Ok(whole)
        } else if self.begins(Kind::Pick) {
            let whole = self.choice(alloc, depth)?;
            Ok(whole)
        } else {
            let name = self.name(alloc, depth)?;
            self.take(Kind::Dot, depth)?;
            let action = self.action(alloc, depth)?;
            self.take(Kind::Semicolon, depth)?;
            Ok(action.command_of(name))
        }
    }

    /// `if formula block`, and an `else` where one is written.
    #[cycle(command)]
    pub fn branch(&mut self, alloc: Global, depth: usize) -> Result<RawCommand, TextRefusal>
        requires { depth ≤ limit + 1 }
        ensures parses { Parses depth (part branch here) self.old self.new result }
        ensures shorter { OnOk result (length self.new + 1 ≤ length self.old) }
        ensures within { OnOk result (depth ≤ limit) }
    {
        self.take(Kind::If, depth)?;
        let condition = self.formula(alloc, depth)?;
        let body = self.block(alloc, depth)?;
        let other = self.otherwise(alloc, depth)?;
        let whole = branching(alloc, condition, body, other)?;
        Ok(whole)
    }

    /// `pick name: sort where formula block`, and an `else` where one is written.
    #[cycle(command)]
    pub fn choice(&mut self, alloc: Global, depth: usize) -> Result<RawCommand, TextRefusal>
        requires { depth ≤ limit + 1 }
        ensures parses { Parses depth (part choice here) self.old self.new result }
        ensures shorter { OnOk result (length self.new + 1 ≤ length self.old) }
        ensures within { OnOk result (depth ≤ limit) }
    {
        self.take(Kind::Pick, depth)?;
        let name = self.name(alloc, depth)?;
        self.take(Kind::Colon, depth)?;
        let sort = self.sort(depth)?;
        self.take(Kind::Where, depth)?;
        let condition = self.formula(alloc, depth)?;
        let body = self.block(alloc, depth)?;
        let other = self.otherwise(alloc, depth)?;
        let whole = choosing(alloc, name, sort, condition, body, other)?;
        Ok(whole)
    }

    /// `else block`; a missing one is `skip`.
    #[cycle(command)]
    pub fn otherwise(&mut self, alloc: Global, depth: usize) -> Result<RawCommand, TextRefusal>
        requires { depth ≤ limit }
        ensures parses { Parses depth (part otherwise here) self.old self.new result }
        ensures shorter { OnOk result (length self.new ≤ length self.old) }
    {
        if !self.next_is(Kind::Else) {
            return Ok(RawCommand::Skip);
        }
        self.take(Kind::Else, depth)?;
        let body = self.block(alloc, depth)?;
        Ok(body)
    }

    /// What is done with the name with which a command begins.
    pub fn action(&mut self, alloc: Global, depth: usize) -> Result<Action, TextRefusal>
        ensures parses { Parses depth (part action here) self.old self.new result }
        ensures shorter { OnOk result (length self.new + 1 ≤ length self.old) }
    {
        if self.next_is(Kind::Insert) {
            self.take(Kind::Insert, depth)?;
            let row = self.row(alloc, depth)?;
            Ok(Action::Change(ChangeWord::Insert, row.terms))
        } else if self.next_is(Kind::Remove) {
            self.take(Kind::Remove, depth)?;
            let row = self.row(alloc, depth)?;
            Ok(Action::Change(ChangeWord::Remove, row.terms))
        } else if self.next_is(Kind::Install) {
            self.take(Kind::Install, depth)?;
            let flow = self.flow(alloc, depth)?;
            Ok(Action::Switch(SwitchWord::Install, flow))
        } else if self.next_is(Kind::Uninstall) {
            self.take(Kind::Uninstall, depth)?;
            let flow = self.flow(alloc, depth)?;
            Ok(Action::Switch(SwitchWord::Uninstall, flow))
        } else if self.next_is(Kind::Forward) {
            self.take(Kind::Forward, depth)?;
            let flow = self.flow(alloc, depth)?;
            Ok(Action::Switch(SwitchWord::Forward, flow))
        } else {
            self.take(Kind::Flood, depth)?;
            let packet = self.packet(alloc, depth)?;
            Ok(Action::Flood(packet))
        }
    }
}
