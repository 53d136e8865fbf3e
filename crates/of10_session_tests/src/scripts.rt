//! A program whose replies are written down.

ghost use Rattle.std.specs.Prelude.{◌≡◌, ◌^◌, [], true, IfOk};
ghost use Rattle.of10_session_tests.specs.Scripts.{declared_where};

use crate::replies::{Step, reply_of};
use csdn_history::reply::Reply;
use of10_session::Ask;
use of10_speech::{Answers, Unanswered};
use std::alloc::Global;

/// Answers the k-th declared ask by the k-th step, over a network of switch 1 without host 9.
#[derive(Drop)]
pub struct Script<'a> {
    alloc: Global,
    steps: &'a [Step],
    expires: bool,
    given: Vec<Reply>,
    asked: Vec<Ask>,
}

fn is_declared(expires: bool, ask: Ask) -> bool
    ensures { result ≡ declared_where expires ask }
{
    match ask {
        Ask::Join { s } => s == 1,
        Ask::Packet { a, .. } => a != 9,
        Ask::Expire { .. } => expires,
    }
}

impl<'a> Script<'a> {
    /// A script before its first step; its program's rules end, or don't.
    pub fn new(alloc: Global, steps: &'a [Step], expires: bool) -> Script<'a>
        ensures given { result.given.items ≡ [] }
        ensures asked { result.asked.items ≡ [] }
    {
        Script {
            alloc,
            steps,
            expires,
            given: Vec::new(alloc),
            asked: Vec::new(alloc),
        }
    }
}

impl<'a> Answers for Script<'a> {
    ghost declares = { λ s ask. declared_where s.expires ask };

    ghost given = { λ s. s.given.items };

    ghost asked = { λ s. s.asked.items };

    ghost is_full = { λ _. true };

    ghost left = { λ _. 2 ^ 60 };

    ghost source = { λ s. tt };

    fn ask(&mut self, ask: Ask) -> Result<Reply, Unanswered> {
        if !is_declared(self.expires, ask) {
            return Err(Unanswered::Stranger);
        }
        let Ok(()) = self.asked.push(ask) else {
            return Err(Unanswered::Memory);
        };
        let Some(step) = self.steps.get(self.given.len()) else {
            return Err(Unanswered::NoEntry);
        };
        let (Ok(reply), Ok(copy)) = (reply_of(self.alloc, *step), reply_of(self.alloc, *step))
        else {
            return Err(Unanswered::Memory);
        };
        match self.given.push(copy) {
            Ok(()) => Ok(reply),
            Err(_) => Err(Unanswered::Memory),
        }
    }
}
