//! Modes replay and audit: a trace is played on the machine, and its census or its audit is told.
ghost use Rattle.std.specs.Prelude.{IfErr, IfOk};
ghost use Rattle.std.specs.String.{string_bytes};
ghost use Rattle.orc_trace.specs.Replay.{RefusesTrace};
ghost use Rattle.orc_program.specs.Answers.{AnswersTrace, TellsTrace};

use crate::answer::Answer;
use orc_fault::NoMemory;
use orc_jobs::Text;
use orc_trace::{TraceFault, audit, audit_text, fault_text, replay, replay_text};
use std::alloc::Global;

/// What is told of a trace.
#[derive(Clone, Copy)]
pub(crate) enum Told {
    /// What its run leaves.
    Census,
    /// The worst backlog, the lives of its rows and its first leak.
    Audit,
}

// What is told of the trace of these bytes, or the line of its first fault.
pub(crate) fn answer_trace(alloc: Global, bytes: &[u8], what: Told) -> Result<Answer, NoMemory>
    ensures { IfOk result (λ a. AnswersTrace what bytes.now a.status a.text) }
{
    let (status, text) = match told_of(alloc, bytes, what) {
        Ok(text) => (0, text),
        Err(TraceFault::NoMemory) => return Err(NoMemory),
        Err(fault) => (8, fault_text(alloc, fault)?),
    };
    Ok(Answer {
        status,
        text: Text::from_string(text),
    })
}

// What is told of the trace of these bytes.
fn told_of(alloc: Global, bytes: &[u8], what: Told) -> Result<String, TraceFault>
    ensures told { IfOk result (λ text. TellsTrace what bytes.now (string_bytes text)) }
    ensures refused { IfErr result (RefusesTrace bytes.now) }
{
    match what {
        Told::Census => {
            let played = replay(alloc, bytes)?;
            Ok(replay_text(alloc, &played)?)
        }
        Told::Audit => {
            let audit = audit(alloc, bytes)?;
            Ok(audit_text(alloc, &audit)?)
        }
    }
}
