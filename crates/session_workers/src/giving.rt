//! Links that are given back.
ghost use Rattle.std.specs.Prelude.{◌≡◌, ◌+◌, ◌*◌, ◌^◌, ◌<◌, ◌≤◌, length, map, sum_by};
ghost use Rattle.session_workers.specs.Endings.{GivenMore, numbered, numbered_from};
ghost use Rattle.session_workers.specs.Told.{told_given};
ghost use Rattle.session_workers.specs.Teams.{views_of};
ghost use Rattle.link_sessions.specs.Links.{view_by};

use crate::row::Links;
use crate::terms::Terms;
use vericon_links::link::Link;
use vericon_links::listener::Listener;

// Gives the links of a seat back, whose first session has this number.
fn give_row<N: Listener>(listener: &mut N, terms: &Terms, first: u32, left: Links<N::Link>)
    requires back { N.back listener.old + length left.links.items ≤ N.came listener.old }
    requires numbers { (first ≤ 64) × (length left.links.items ≤ 2 ^ 20) }
    ensures given { GivenMore (told_given (view_by N.Link.taken N.Link.written N.Link.closed N.Link.is_shut N.Link.read_faults N.Link.write_faults) (N.given listener.old)) (told_given (view_by N.Link.taken N.Link.written N.Link.closed N.Link.is_shut N.Link.read_faults N.Link.write_faults) (N.given listener.new)) (numbered_from terms.now first (map (view_by N.Link.taken N.Link.written N.Link.closed N.Link.is_shut N.Link.read_faults N.Link.write_faults) left.links.items)) }
    ensures back { N.back listener.new ≡ N.back listener.old + length left.links.items }
    ensures came { N.came listener.new ≡ N.came listener.old }
    ensures ended { N.ended listener.new ≡ N.ended listener.old }
    ensures faults { N.faults listener.new ≡ N.faults listener.old }
{
    let mut number = first;
    'links: for link in left.links {
        listener.give_back(number, link);
        number += terms.workers;
    }
}

/// Gives all links back, by the numbers of the seats.
pub fn give_all<N: Listener>(listener: &mut N, terms: &Terms, links: Vec<Links<N::Link>>)
    requires back { N.back listener.old + sum_by (λ left. length left.links.items) links.items ≤ N.came listener.old }
    requires few { (length links.items ≤ 64) × (N.came listener.old ≤ 2 ^ 20) }
    ensures given { GivenMore (told_given (view_by N.Link.taken N.Link.written N.Link.closed N.Link.is_shut N.Link.read_faults N.Link.write_faults) (N.given listener.old)) (told_given (view_by N.Link.taken N.Link.written N.Link.closed N.Link.is_shut N.Link.read_faults N.Link.write_faults) (N.given listener.new)) (numbered terms.now 0 (views_of (view_by N.Link.taken N.Link.written N.Link.closed N.Link.is_shut N.Link.read_faults N.Link.write_faults) links.items)) }
    ensures back { N.back listener.new ≡ N.back listener.old + sum_by (λ left. length left.links.items) links.items }
    ensures came { N.came listener.new ≡ N.came listener.old }
    ensures ended { N.ended listener.new ≡ N.ended listener.old }
    ensures faults { N.faults listener.new ≡ N.faults listener.old }
{
    let mut seat = 0;
    'rows: for left in links {
        give_row(listener, terms, 1 + seat, left);
        seat += 1;
    }
}
