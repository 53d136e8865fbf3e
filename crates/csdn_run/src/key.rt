//! Matches as keys of maps and sets.
ghost use Rattle.std.specs.Prelude.{◌≡◌, refl};
ghost use Rattle.std.specs.Ordering.{as_partial_cmp, eq_by_cmp};
ghost use Rattle.std.specs.Cmp.{eq_by_cmp_equiv, partial_equiv_from_equiv, partial_order_from_total};
ghost use Rattle.csdn_run.specs.Places.{match_cmp, match_total};

use csdn_core::event::Match;
use std::cmp::Ordering;
use std::marker::Model;

/// A match, ordered by its switch, source, destination and port. Clauses see it as the match.
#[derive(Drop)]
pub struct Key {
    place: Match,
}

impl Model for Key {
    ghost use Rattle.csdn_core.specs.declared.event.Match.{Match as SpecMatch};

    ghost Value = { SpecMatch };

    ghost view = { λ k. k.place };
}

impl Key {
    /// The key of a match.
    pub fn of(place: &Match) -> Key
        ensures { result ≡ place.now }
    {
        Key { place: *place }
    }

    /// The match that it is the key of.
    pub fn get(&self) -> Match
        ensures { result ≡ self.now }
    {
        self.place
    }
}

impl PartialEq for Key {
    ghost eq = { eq_by_cmp match_cmp };

    ghost laws = { partial_equiv_from_equiv (eq_by_cmp_equiv match_total) };

    fn eq(&self, other: &Key) -> bool {
        self.cmp(other) == Ordering::Equal
    }
}

impl Eq for Key {
    ghost laws = { eq_by_cmp_equiv match_total };
}

impl PartialOrd for Key {
    ghost partial_cmp = { as_partial_cmp match_cmp };

    ghost laws = { partial_order_from_total match_total };

    fn partial_cmp(&self, other: &Key) -> Option<Ordering> {
        Some(self.cmp(other))
    }
}

impl Ord for Key {
    ghost cmp = { match_cmp };

    ghost total = { match_total };

    ghost matches_partial_cmp = { λ x y. refl };

    ghost matches_eq = { λ x y. refl };

    fn cmp(&self, other: &Key) -> Ordering {
        let (m, n) = (&self.place, &other.place);
        m.s.cmp(&n.s)
            .then(m.a.cmp(&n.a))
            .then(m.b.cmp(&n.b))
            .then(m.i.cmp(&n.i))
    }
}
