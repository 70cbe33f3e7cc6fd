//! A run of any container.

ghost use Rattle.std.specs.Prelude.{◌≡◌, ◌+◌, ◌*◌, ◌≤◌, ℕ, IfOk, length};
ghost use Rattle.orc_any_domain.specs.Domains.{AreAllIdle};
ghost use Rattle.orc_stress.specs.{Answers.{calls_of}, Passes.{AreReady}};

use orc_any_domain::Domain;
use orc_fault::NoMemory;
use orc_stress::{Container, Counts, Driven, Plan, drive};
use std::alloc::Global;
use std::thread::Threads;
use std::time::{Clock, Instant};

// A container that comes to rest once no agent calls it any more.
pub(crate) trait Resting: Container {
    // how many agents it has
    ghost agents: { Self → ℕ };

    // Ends the sharing, and counts rows.
    fn rest(self, passes: Vec<Self::Pass>) -> Counts
        requires ready { AreReady (Self.ready self) (Self.agent_of self) passes.items }
        requires all { length passes.items ≡ agents self };
}

// Brings a domain to rest with all its passes, and counts rows.
pub(crate) fn rested<L: Domain>(domain: L, passes: Vec<L::Pass>) -> Counts
    requires { AreAllIdle L.Links domain passes.items }
    ensures balance { result.given ≡ result.reused + result.linked }
{
    let rest = domain.end(passes);
    let counts = L::counts(&rest);
    Counts {
        given: counts.given,
        reused: counts.reused,
        linked: counts.linked,
    }
}

// Drives a container, and brings it to rest.
#[tactic(auto, using(orc_stress::proofs::Staying::first_agents_stay, orc_stress::proofs::Staying::as_many_stay, orc_stress::proofs::Staying::first_ready))]
pub(crate) fn drive_to_rest<R: Threads + Clock + Sync, C: Resting + Sync + Drop>(
    rt: &R,
    alloc: Global,
    plan: &Plan,
    instant: Instant,
    container: C,
    passes: Vec<C::Pass>,
) -> Result<(Driven, Counts), NoMemory>
where
    C::Pass: Send,
    requires ready { AreReady (C.ready container) (C.agent_of container) passes.items }
    requires all { length passes.items ≡ C.agents container }
    requires few { length passes.items ≤ 16 }
    requires enough { plan.now.threads ≤ length passes.items }
    ensures calls { IfOk result (λ r. calls_of r.0.tally.answers ≡ plan.now.threads * plan.now.load.calls) }
{
    let (passes, driven) = drive(rt, alloc, &container, passes, plan, instant)?;
    Ok((driven, container.rest(passes)))
}
