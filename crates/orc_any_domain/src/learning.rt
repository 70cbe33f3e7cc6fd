//! Passes that learn from each other in rounds.

ghost use Rattle.std.specs.Prelude.{◌≢◌};
ghost use Rattle.std.specs.List.{AllByRecursion};
ghost use Rattle.orc_any_domain.specs.Learning.{LearnsAll, LearnsRound};
ghost use Rattle.orc_heap.specs.Domains.{agent};

use orc_heap::Links;

// Lets the pass learn from each of the others.
fn learn_round<L: Links>(links: &L, first: &mut L::Pass, others: &mut [L::Pass])
    requires first { L.belongs links.now first.old }
    requires others { AllByRecursion (λ p. L.belongs links.now p) others.old }
    requires agents { AllByRecursion (λ p. agent L.Links links.now first.old ≢ agent L.Links links.now p) others.old }
    ensures first { L.belongs links.now first.new }
    ensures others { AllByRecursion (λ p. L.belongs links.now p) others.new }
    ensures steps { LearnsRound (λ p. L.seat links.now p) L.agent_of L.journal first.old first.new others.old others.new }
    ensures events { LearnsRound (λ p. L.seat links.now p) (λ e. e.agent) (λ p. (L.seat links.now p).seen) first.old first.new others.old others.new }
{
    let Some((next, rest)) = others.split_first_mut() else {
        return;
    };
    links.learn(first, next);
    learn_round(links, first, rest);
}

/// Lets the pass learn from each of the others, twice. All have then seen one list of steps, the longest that one of them had seen,
/// and its events.
pub fn learn_all<L: Links>(links: &L, first: &mut L::Pass, others: &mut [L::Pass])
    requires first { L.belongs links.now first.old }
    requires others { AllByRecursion (λ p. L.belongs links.now p) others.old }
    requires agents { AllByRecursion (λ p. agent L.Links links.now first.old ≢ agent L.Links links.now p) others.old }
    ensures first { L.belongs links.now first.new }
    ensures others { AllByRecursion (λ p. L.belongs links.now p) others.new }
    ensures steps { LearnsAll (λ p. L.seat links.now p) L.agent_of L.journal first.old first.new others.old others.new }
    ensures events { LearnsAll (λ p. L.seat links.now p) (λ e. e.agent) (λ p. (L.seat links.now p).seen) first.old first.new others.old others.new }
{
    learn_round(links, first, others);
    learn_round(links, first, others);
}
