//! The matches that a switch which joins is told of.
ghost use Rattle.std.specs.Prelude.{◌≡◌, IfOk, OnOk};
ghost use Rattle.std.specs.List.{flat_map};
ghost use Rattle.std.specs.List.Sorted.{IsStrictlySortedBy};
ghost use Rattle.net_structs.specs.Networks.{in_order, put_in_order};
ghost use Rattle.net_structs.specs.Rows.{held};
ghost use Rattle.csdn_run.specs.Places.{match_cmp};
ghost use Rattle.csdn_run.specs.Replies.{joined};
ghost use Rattle.csdn_run.specs.Joins.{is_flow, match_at};

use crate::key::Key;
use crate::rules::Setting;
use csdn_core::event::{Match, Matches};
use csdn_core::terms::{Pred, Sort};
use net_structs::network::Network;
use net_structs::row::Row;
use net_structs::state::State;
use sqlite_items::Items;
use std::alloc::{AllocError, Global};
use std::collections::BTreeSet;

type Keys = BTreeSet<Key>;

/// The matches that `ft` holds for a switch, rising by source, destination and port. It looks at all flow rules.
pub fn matches_of(setting: &Setting, state: &State, s: u64) -> Result<Matches, AllocError>
    ensures { IfOk result (λ matches. matches ≡ joined setting.now.network.now (held state.now) s) }
{
    let rows = state.rows(setting.alloc, Pred::Ft)?;
    let keys = keys_of(setting, rows.as_slice(), s)?;
    listed(setting.alloc, &keys)
}

fn keys_of(setting: &Setting, rows: &[Row], s: u64) -> Result<Keys, AllocError>
    ensures { IfOk result (λ keys. keys.keys ≡ in_order match_cmp (flat_map (match_at setting.now.network.now s) rows.now)) }
{
    let mut keys = BTreeSet::new(setting.alloc);
    let mut rest = rows;
    'rows: while let [row, more @ ..] = rest {
        insert_match(&mut keys, setting.network, s, row)?;
        rest = more;
    }
    Ok(keys)
}

// Inserts the match of a flow rule of a switch, if its elements are the network's.
fn insert_match(keys: &mut Keys, network: &Network, s: u64, row: &Row) -> Result<(), AllocError>
    ensures { OnOk result (keys.new.keys ≡ put_in_order match_cmp keys.old.keys (match_at network.now s row.now)) }
{
    match row.cells.as_slice() {
        [t, a, b, i, o] => {
            if s == *t && is_flow_of(network, *a, *b, *i, *o) {
                let key = Key::of(&Match {
                    s,
                    a: *a,
                    b: *b,
                    i: *i,
                });
                keys.insert(key)?;
            }
            Ok(())
        }
        _ => Ok(()),
    }
}

fn is_flow_of(network: &Network, a: u64, b: u64, i: u64, o: u64) -> bool
    ensures { result ≡ is_flow network.now a b i o }
{
    network.has(Sort::Ho, a)
        && (network.has(Sort::Ho, b) && (network.has(Sort::Pr, i) && network.has(Sort::Pr, o)))
}

// The members of a set of matches.
fn listed(alloc: Global, keys: &Keys) -> Result<Matches, AllocError>
    ensures { IfOk result (λ matches. matches ≡ keys.now.keys) }
{
    let mut matches = Items::new(alloc);
    'keys: for key in keys {
        matches.push(key.get())?;
    }
    Ok(matches)
}
