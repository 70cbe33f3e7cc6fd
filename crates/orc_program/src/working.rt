//! The run that the settings ask for.
ghost use Rattle.std.specs.Prelude.{◌≡◌, IfOk};
ghost use Rattle.orc_jobs.specs.GoodLines.{AreGood};
ghost use Rattle.orc_options.specs.Settings.{AreInRange};
ghost use Rattle.orc_program.specs.Headline.{WorkedThrough, set_of as set_asked};

use crate::answer::Setup;
use orc_board::Gate;
use orc_fault::NoMemory;
use orc_jobs::Lines;
use orc_options::{SetKind, Settings};
use orc_run::{Finished, SetChoice, Task, run_lines};
use std::sync::Wait;
use std::thread::Threads;

impl<R: Threads + Wait + Sync, G: Gate + Sync> Setup<'_, R, G> {
    // Works through these lines with the posters, takers, rows and set of the settings.
    pub(crate) fn run(&self, lines: &Lines) -> Result<Finished, NoMemory>
        requires ranges { AreInRange self.now.settings }
        requires good { AreGood lines.now }
        ensures { IfOk result (λ f. WorkedThrough lines.now self.now.settings f) }
    {
        let Settings {
            posters,
            takers,
            rows,
            ..
        } = self.settings;
        let task = Task {
            lines,
            posters,
            takers,
            rows,
        };
        run_lines(self.rt, self.alloc, &task, set_of(self.settings), self.gate)
    }
}

// The set that the settings ask for.
fn set_of(settings: Settings) -> SetChoice
    ensures { result ≡ set_asked settings }
{
    match settings.set {
        SetKind::List => SetChoice::Lists(settings.buckets),
        SetKind::Split => SetChoice::Split,
    }
}
