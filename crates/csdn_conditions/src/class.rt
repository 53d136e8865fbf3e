//! Whether a condition can be decided.
#![tactic(auto)]

ghost use Rattle.std.specs.Prelude.{◌≡◌, ◌<◌, ◌≤◌, IfOk, length};
ghost use Rattle.csdn_conditions.specs.Kinds.{kinds};
ghost use Rattle.csdn_conditions.specs.Conditions.{sentence};
ghost use Rattle.csdn_conditions.specs.Answers.{OfCondition};
ghost use Rattle.csdn_conditions.specs.Classes.{IsClass, greatest_size};

use crate::condition::condition;
use csdn_core::program::Program;
use csdn_core::syntax::Formula;
use fol_forms::count::node_count;
use fol_forms::fragment::in_fragment;
use fol_forms::instances::instance_count;
use fol_forms::normal::count_of;
use fol_forms::refusal::{FormRefusal, MOST_NODES};
use std::alloc::{AllocError, Global};

/// The most atoms and equations that the copies of a sentence may have, where no other size is chosen.
pub const USUAL_SIZE: u64 = 16_777_216;

/// The greatest size that may be chosen.
pub const GREATEST_SIZE: u64 = 9_007_199_254_740_992;

/// Whether a condition can be decided, or why it can't.
#[derive(Clone, Copy, Debug, PartialEq, Eq)]
pub enum Class {
    /// It can be decided.
    Inside,
    /// Its sentence, or the normal form of that, has more than 1,048,576 nodes.
    Nodes,
    /// In the normal form of its sentence an `exists` stands under a `forall`.
    Outside,
    /// The copies of its sentence have this many atoms and equations, more than the size; 2^64 - 1 where they have more.
    Instances(u64),
}

/// The class of a sentence by a size, which is the most atoms and equations that its copies may have. It takes no memory.
pub fn class_of(program: &Program, size: u64, sentence: &Formula) -> Class
    requires { size ≤ greatest_size }
    ensures { IsClass program.now size sentence.now result }
{
    if node_count(sentence) > MOST_NODES {
        return Class::Nodes;
    }
    if count_of(sentence, true) > MOST_NODES {
        return Class::Nodes;
    }
    if !in_fragment(sentence) {
        return Class::Outside;
    }
    let count = instance_count(program, sentence);
    if count > size {
        return Class::Instances(count);
    }
    Class::Inside
}

/// The class of the condition of this number by a size.
pub fn condition_class(
    alloc: Global,
    program: &Program,
    size: u64,
    level: u8,
    index: u32,
) -> Result<Class, AllocError>
    requires size { size ≤ greatest_size }
    requires level { level ≤ 9 }
    requires index { index < length (kinds program.now level) }
    ensures { IfOk result (λ class. OfCondition program.now level index (λ c. IsClass program.now size (sentence c) class)) }
{
    match condition(alloc, program, level, index) {
        Ok(condition) => {
            let sentence = condition.into_sentence(alloc)?;
            Ok(class_of(program, size, &sentence))
        }
        Err(FormRefusal::Large) => Ok(Class::Nodes),
        Err(FormRefusal::Memory) => Err(AllocError),
    }
}
