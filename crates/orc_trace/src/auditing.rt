//! Traces audited: their worst backlog, the lives of their rows, and their first leak.

ghost use Rattle.std.specs.Prelude.{◌≡◌, ◌≢◌, ◌⊎◌, ◌+◌, ◌<◌, ◌^◌, List, None, ℕ, [], IfErr, IfOk, MatchResult, length};
ghost use Rattle.orc_words.specs.Bounds.{bounds_of};
ghost use Rattle.orc_core.specs.{declared.ops.Op.{Op}, Machine.{new_machine}, Runs.{run}};
ghost use Rattle.orc_trace.specs.{
  declared.answers.{Audit.{Audit}, TraceFault.{TraceFault}},
  Audit.{IsAudit, lives_of},
  Replay.{BeginsWithSteps, IsStepFault, RefusesTrace},
  Reaching.{HasMarks},
  Watched.{LeakOn, SeesSteps, WorseOf, waiting},
};

use crate::answers::{Audit, Leak, TraceFault};
use crate::leaks::leak_in;
use crate::reaching::Reach;
use crate::waiting::waiting_of;
use orc_core::{State, apply};
use orc_fault::NoMemory;
use orc_trace_text::{first_step, read_shape};
use orc_words::{Shape, Word, Words, read_gate};
use std::alloc::Global;

/// Plays a trace as `replay` does, and tells the worst backlog of its run, the life of each row, and the first row that leaks.
///
/// # Errors
///
/// The first fault of the trace, as `replay` tells it, or want of memory.
pub fn audit(alloc: Global, bytes: &[u8]) -> Result<Audit, TraceFault>
    ensures ok { IfOk result (IsAudit bytes.now) }
    ensures err { IfErr result (RefusesTrace bytes.now) }

    // A trace is audited, and other bytes are refused for their first fault, unless memory runs out.
    ensures only { (audit : Audit) → IsAudit bytes.now audit
        → MatchResult result (λ r. r ≡ audit) (λ e. e ≡ TraceFault.NoMemory) }
    ensures bad { (why : TraceFault) → why ≢ TraceFault.NoMemory → RefusesTrace bytes.now why
        → MatchResult result (λ _. ⊥) (λ e. (e ≡ why) ⊎ (e ≡ TraceFault.NoMemory)) }
{
    audit_trace(alloc, bytes)
}

// The same, without that each other answer is wrong.
fn audit_trace(alloc: Global, bytes: &[u8]) -> Result<Audit, TraceFault>
    ensures ok { IfOk result (IsAudit bytes.now) }
    ensures err { IfErr result (RefusesTrace bytes.now) }
{
    let (shape, lines) = match read_shape(bytes) {
        Ok(found) => found,
        Err(word) => return Err(TraceFault::Shape(word)),
    };
    let mut state = State::new(alloc, &shape)?;
    let mut reach = Reach::new(alloc, &shape)?;
    let seen = watch_steps(&shape, &mut state, lines, &mut reach)?;
    let lives = lives_of(alloc, &state)?;
    Ok(Audit {
        steps: seen.steps,
        most: seen.most,
        after: seen.after,
        lives,
        leak: seen.leak,
    })
}

// What was seen of the steps so far.
#[derive(Clone, Copy)]
struct SeenSoFar {
    steps: u64,
    most: u32,
    after: u64,
    leak: Option<Leak>,
}

// Makes the steps of these lines on a new table, and looks at each state from the first on.
fn watch_steps(
    shape: &Shape,
    state: &mut State,
    lines: &[u8],
    reach: &mut Reach,
) -> Result<SeenSoFar, TraceFault>
    requires new { state.old ≡ new_machine (bounds_of shape.now) }
    requires room { HasMarks reach.old (bounds_of shape.now).rows }
    ensures ok { IfOk result (λ seen. (steps : List (ℕ × Op)) × BeginsWithSteps (bounds_of shape.now) state.old steps [] lines.now
        × SeesSteps (bounds_of shape.now) steps seen × (state.new ≡ run state.old steps)) }
    ensures err { IfErr result (IsStepFault (bounds_of shape.now) state.old lines.now) }
{
    let mut rest = lines;
    let mut seen = first_look(state, reach);
    while !rest.is_empty() {
        let Some((agent, op, more)) = first_step(shape, rest) else {
            return Err(TraceFault::Unreadable(seen.steps));
        };
        if apply(state, agent, &op).is_err() {
            return Err(TraceFault::NotAllowed(seen.steps));
        }
        rest = more;
        seen = look(state, reach, seen);
    }
    Ok(seen)
}

// What is seen of the first state.
fn first_look(state: &State, reach: &mut Reach) -> SeenSoFar
    requires { HasMarks reach.old state.now.bounds.rows }
    ensures room { HasMarks reach.new state.now.bounds.rows }
    ensures steps { result.steps ≡ 0 }
    ensures most { result.most ≡ waiting state.now }
    ensures after { result.after ≡ 0 }
    ensures leak { LeakOn state.now 0 None result.leak }
{
    SeenSoFar {
        steps: 0,
        most: waiting_of(state),
        after: 0,
        leak: first_leak(state, reach, None, 0),
    }
}

// What has been seen with this state, which one more step left.
fn look(state: &State, reach: &mut Reach, seen: SeenSoFar) -> SeenSoFar
    requires room { HasMarks reach.old state.now.bounds.rows }
    requires few { seen.steps + 1 < 2 ^ 64 }
    ensures room { HasMarks reach.new state.now.bounds.rows }
    ensures steps { result.steps ≡ seen.steps + 1 }
    ensures worst { WorseOf (waiting state.now) (seen.steps + 1) seen.most seen.after result.most result.after }
    ensures leak { LeakOn state.now (seen.steps + 1) seen.leak result.leak }
{
    let steps = seen.steps + 1;
    let (most, after) = worse_of(waiting_of(state), steps, seen.most, seen.after);
    let leak = first_leak(state, reach, seen.leak, steps);
    SeenSoFar {
        steps,
        most,
        after,
        leak,
    }
}

// The worse of a backlog after so many steps and the worst before; the worst before where they are equal.
fn worse_of(backlog: u32, steps: u64, most: u32, after: u64) -> (u32, u64)
    ensures { WorseOf backlog steps most after result.0 result.1 }
{
    if backlog > most {
        (backlog, steps)
    } else {
        (most, after)
    }
}

// The first leak before; where there was none, that of this state, after so many steps.
fn first_leak(state: &State, reach: &mut Reach, before: Option<Leak>, steps: u64) -> Option<Leak>
    requires { HasMarks reach.old state.now.bounds.rows }
    ensures room { HasMarks reach.new state.now.bounds.rows }
    ensures leak { LeakOn state.now steps before result }
{
    if before.is_some() {
        return before;
    }
    match leak_in(state, reach) {
        None => None,
        Some(row) => Some(Leak { after: steps, row }),
    }
}

// The life of each row, in order.
fn lives_of(alloc: Global, state: &State) -> Result<Words, NoMemory>
    ensures { IfOk result (λ lives. lives ≡ lives_of state.now) }
{
    let mut lives = Words::new(alloc);
    for row in 0..state.shape().rows() {
        let gate = read_gate(state.word(Word::Gate(row)));
        lives.push(gate.life)?;
    }
    Ok(lives)
}
