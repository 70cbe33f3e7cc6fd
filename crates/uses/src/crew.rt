//! All passes of a domain, once their agents have worked.

ghost use Rattle.std.specs.Prelude.{◌≡◌, ◌<◌, ℕ, All, length, slice_index_or, true};
ghost use Rattle.orc_any_domain.specs.Domains.{IsIdlePass};
ghost use Rattle.orc_heap.specs.Domains.{agent};

use orc_containers::Domain;
use orc_heap::Links;

// Whether the passes are in order of agent.
pub(crate) fn are_in_order<L: Links>(links: &L, passes: &[L::Pass]) -> bool
    ensures { result ≡ true → (i : ℕ) (p : L.Pass) → i < length passes.now → agent L.Links links.now (slice_index_or passes.now i p) ≡ i }
{
    for place in 0..passes.len() {
        if links.agent(&passes[place]) as usize != place {
            return false;
        }
    }
    true
}

// How many rows all passes together have still to work through.
pub(crate) fn backlog_of_all<L: Domain>(links: &L, passes: &[L::Pass]) -> u32
    requires { All (IsIdlePass L.Links links.now) passes.now }
{
    let mut rows: u32 = 0;
    for place in 0..passes.len() {
        rows = rows.wrapping_add(links.backlog(&passes[place]));
    }
    rows
}

// Lets the pass settle.
fn settle_one<L: Links>(links: &L, p: &mut L::Pass)
    requires { IsIdlePass L.Links links.now p.old }
    ensures { IsIdlePass L.Links links.now p.new }
{
    links.settle(p);
}

// Lets each of the passes settle, while no other steps. Answers how many rows they then have still to work through.
pub(crate) fn backlog_when_settled<L: Domain>(links: &L, passes: &mut [L::Pass]) -> u32
    requires usable { All (IsIdlePass L.Links links.now) passes.old }
    ensures usable { All (IsIdlePass L.Links links.now) passes.new }
    ensures many { length passes.new ≡ length passes.old }
{
    for place in 0..passes.len() {
        settle_one(links, &mut passes[place]);
    }
    backlog_of_all(links, passes)
}
