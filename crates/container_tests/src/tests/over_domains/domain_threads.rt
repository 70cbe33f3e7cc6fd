//! Plain domains under the example's discipline: on two threads, and a chain that two passes build.

ghost use Rattle.std.specs.Prelude.{◌≡◌, ◌≤◌, All, IfOk, IfSome};
ghost use Rattle.orc_words.specs.Bounds.{bounds_of};
ghost use Rattle.orc_plain_domain.specs.Passes.{IsPassOf, domain_numbers, seat_of};
ghost use Rattle.container_tests.specs.Ready.{HasEmptyRoot};

use links_example::{OwnRoots, PushRefused, through_a_stack};
use orc_fault::NoMemory;
use orc_heap::{Links, Seed};
use orc_plain_domain::{PlainDomain, PlainPass};
use orc_words::Shape;
use std::alloc::Global;
use std::thread::{Threads, join_mut};

type Domain = PlainDomain<OwnRoots>;

type Pass = PlainPass<OwnRoots>;

// Both values that an agent put on its stack, the upper one first.
type Read = Result<(u64, u64), PushRefused>;

// Makes a domain in which each agent has a root, which is null.
fn with_roots(alloc: Global, shape: &Shape) -> Result<(Domain, Vec<Pass>), NoMemory>
    requires roots { (bounds_of shape.now).agents ≤ (bounds_of shape.now).roots }
    ensures pass { IfOk result (λ made. All (λ p. IsPassOf made.0 p) made.1.items) }
    ensures ready { IfOk result (λ made. All (λ p. HasEmptyRoot (domain_numbers made.0) (seat_of made.0 p)) made.1.items) }
{
    Domain::make(alloc, shape, Seed::Empty)
}

// Answers the last of the domain's new passes.
fn next_pass(domain: &Domain, passes: &mut Vec<Pass>) -> Option<Pass>
    requires pass { All (λ p. IsPassOf domain.now p) passes.old.items }
    requires ready { All (λ p. HasEmptyRoot (domain_numbers domain.now) (seat_of domain.now p)) passes.old.items }
    ensures pass { All (λ p. IsPassOf domain.now p) passes.new.items }
    ensures ready { All (λ p. HasEmptyRoot (domain_numbers domain.now) (seat_of domain.now p)) passes.new.items }
    ensures popped { IfSome result (λ p. IsPassOf domain.now p) }
    ensures next { IfSome result (λ p. HasEmptyRoot (domain_numbers domain.now) (seat_of domain.now p)) }
{
    passes.pop()
}

// Lets an agent put two values on its stack, and read them there.
fn through_own_stack(domain: &Domain, p: &mut Pass, lower: u64, upper: u64) -> Read
    requires pass { IsPassOf domain.now p.old }
    requires ready { HasEmptyRoot (domain_numbers domain.now) (seat_of domain.now p.old) }
    ensures pass { IsPassOf domain.now p.new }
    ensures read { IfOk result (λ got. got ≡ (upper, lower)) }
{
    through_a_stack(domain, p, lower, upper)
}

// Lets two agents do so, each in a thread of its own.
fn on_two_threads<R: Threads + Sync>(
    rt: &R,
    domain: &Domain,
    one: &mut Pass,
    two: &mut Pass,
) -> (Read, Read)
    requires pass { IsPassOf domain.now one.old × IsPassOf domain.now two.old }
    requires ready { HasEmptyRoot (domain_numbers domain.now) (seat_of domain.now one.old) × HasEmptyRoot (domain_numbers domain.now) (seat_of domain.now two.old) }
{
    join_mut(
        rt,
        &mut || through_own_stack(domain, one, 1, 2),
        &mut || through_own_stack(domain, two, 3, 4),
    )
}

// Which agents a new domain has, and what each read on its own stack.
fn two_share_the_rows<R: Threads + Sync>(
    rt: &R,
    alloc: Global,
) -> Option<((u32, u32), (Read, Read))> {
    let Ok(shape) = Shape::new(4, 2, 2, 8) else {
        return None;
    };
    let Ok((domain, mut passes)) = with_roots(alloc, &shape) else {
        return None;
    };
    let mut second = next_pass(&domain, &mut passes)?;
    let mut first = next_pass(&domain, &mut passes)?;
    let agents = (domain.agent(&first), domain.agent(&second));
    Some((agents, on_two_threads(rt, &domain, &mut first, &mut second)))
}

#[test]
fn two_threads_share_the_rows(rt: HostRuntime) {
    let told = two_share_the_rows(&rt, rt.alloc());
    assert_eq!(rt; told, Some(((0, 1), (Ok((2, 1)), Ok((4, 3))))));
}
