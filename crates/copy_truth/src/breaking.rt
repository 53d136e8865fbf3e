//! The members of a `forall` that may be false.
#![tactic(auto)]

ghost use Rattle.std.specs.Prelude.{◌≡◌, ◌<◌, ◌==◌, true, not, IfOk, OnOk};
ghost use Rattle.std.specs.List.{list_all};
ghost use Rattle.csdn_core.specs.declared.terms.Sort.{Sort as AnySort};
ghost use Rattle.fol_forms.specs.Forms.{ForAll};
ghost use Rattle.form_trees.specs.Plain.{IsPlain};
ghost use Rattle.form_trees.specs.Trees.{tree_form};
ghost use Rattle.ground_inst.specs.Walk.{scope, ways_of};
ghost use Rattle.copy_truth.specs.Breaking.{AreCandidates};

use crate::binders::{can_open, open_binders};
use crate::candidates::Candidates;
use crate::opened::{OPEN, Variable};
use crate::reading::Reading;
use crate::searching::search_misses;
use form_trees::trees::FormTree;
use ground_inst::places::Binding;
use ground_inst::walk::bind;
use std::alloc::AllocError;

/// Those constants of a variable at which the copies of a `forall`'s body may be false: at each other one they are true, whatever the
/// first free constants. They are all, where the `forall` isn't called plain. The bindings are the same at the end.
pub fn member_candidates(
    r: &Reading,
    x: Variable,
    body: &FormTree,
    is_plain: bool,
    env: &mut Vec<Binding>,
) -> Result<Candidates, AllocError>
    requires plain { is_plain ≡ true → IsPlain (ForAll x.var x.sort (tree_form body.now)) }
    ensures value { IfOk result (λ c. AreCandidates r.now (tree_form body.now) x.var x.sort (scope env.old.items) c) }
    ensures env { OnOk result (env.new.items ≡ env.old.items) }
{
    if is_plain && can_open(&r.names, env) {
        return plain_candidates(r, x, body, env);
    }
    Ok(Candidates::all())
}

// The same of a plain one, with its variable and those of its body left open.
fn plain_candidates(
    r: &Reading,
    x: Variable,
    body: &FormTree,
    env: &mut Vec<Binding>,
) -> Result<Candidates, AllocError>
    requires plain { IsPlain (ForAll x.var x.sort (tree_form body.now)) }
    requires known { list_all (λ b. not (b.place == OPEN)) env.now.items ≡ true }
    requires filled { (s : AnySort) → 0 < (ways_of r.now.names).count s }
    ensures value { IfOk result (λ c. AreCandidates r.now (tree_form body.now) x.var x.sort (scope env.old.items) c) }
    ensures env { OnOk result (env.new.items ≡ env.old.items) }
{
    let known = env.len();
    bind(env, x.at(OPEN))?;
    open_binders(body, env)?;
    let candidates = search_misses(r, x, body, env)?;
    env.truncate(known);
    Ok(candidates)
}
