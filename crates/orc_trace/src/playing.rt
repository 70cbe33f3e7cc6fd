//! Traces played on the machine.

ghost use Rattle.std.specs.Prelude.{◌≡◌, ◌≢◌, ◌⊎◌, List, ℕ, [], IfErr, IfOk, MatchResult, length};
ghost use Rattle.orc_words.specs.Bounds.{bounds_of};
ghost use Rattle.orc_core.specs.{declared.ops.Op.{Op}, Machine.{new_machine}, Runs.{run}};
ghost use Rattle.orc_trace.specs.{
  declared.answers.{Replayed.{Replayed}, TraceFault.{TraceFault}},
  Replay.{BeginsWithSteps, IsReplay, IsStepFault, RefusesTrace},
};

use crate::answers::{Replayed, TraceFault};
use orc_core::{State, apply, census};
use orc_trace_text::{first_step, read_shape};
use orc_words::Shape;
use std::alloc::Global;

/// Plays a trace on a new table: its first line is the shape, and each further line is a step.
///
/// It answers the number of steps and the census of their run, or the first fault: of the first line, and then
/// of the steps in order: each must be readable, and then allowed where it stands. No line is copied.
pub fn replay(alloc: Global, bytes: &[u8]) -> Result<Replayed, TraceFault>
    ensures ok { IfOk result (IsReplay bytes.now) }
    ensures err { IfErr result (RefusesTrace bytes.now) }

    // A trace is played, and other bytes are refused for their first fault, unless memory runs out.
    ensures only { (played : Replayed) → IsReplay bytes.now played
        → MatchResult result (λ r. r ≡ played) (λ e. e ≡ TraceFault.NoMemory) }
    ensures bad { (why : TraceFault) → why ≢ TraceFault.NoMemory → RefusesTrace bytes.now why
        → MatchResult result (λ _. ⊥) (λ e. (e ≡ why) ⊎ (e ≡ TraceFault.NoMemory)) }
{
    play_trace(alloc, bytes)
}

// The same, without that each other answer is wrong.
fn play_trace(alloc: Global, bytes: &[u8]) -> Result<Replayed, TraceFault>
    ensures ok { IfOk result (IsReplay bytes.now) }
    ensures err { IfErr result (RefusesTrace bytes.now) }
{
    let (shape, lines) = match read_shape(bytes) {
        Ok(found) => found,
        Err(word) => return Err(TraceFault::Shape(word)),
    };
    let mut state = State::new(alloc, &shape)?;
    let steps = play_lines(&shape, &mut state, lines)?;
    let census = census(&state);
    Ok(Replayed { steps, census })
}

// Makes the steps of these lines on a new table, and answers how many they are.
fn play_lines(shape: &Shape, state: &mut State, lines: &[u8]) -> Result<u64, TraceFault>
    requires { state.old ≡ new_machine (bounds_of shape.now) }
    ensures ok { IfOk result (λ number. (steps : List (ℕ × Op)) × BeginsWithSteps (bounds_of shape.now) state.old steps [] lines.now
        × (number ≡ length steps) × (state.new ≡ run state.old steps)) }
    ensures err { IfErr result (IsStepFault (bounds_of shape.now) state.old lines.now) }
{
    let mut rest = lines;
    let mut steps = 0;
    while !rest.is_empty() {
        let Some((agent, op, more)) = first_step(shape, rest) else {
            return Err(TraceFault::Unreadable(steps));
        };
        if apply(state, agent, &op).is_err() {
            return Err(TraceFault::NotAllowed(steps));
        }
        rest = more;
        steps += 1;
    }
    Ok(steps)
}
