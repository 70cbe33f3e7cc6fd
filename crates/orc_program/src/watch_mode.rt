//! Mode watch: a watch file is worked through over a cell, and told.
ghost use Rattle.std.specs.Prelude.{◌≡◌, ◌≤◌, ◌⊎◌, if◌then◌else◌, IfErr, IfOk, None, Some, length};
ghost use Rattle.orc_options.specs.Settings.{AreInRange};
ghost use Rattle.orc_program.specs.{Answers.{AnswersWatch, RefusesSize}, Ended.{HasWatched, cell_numbers}};
ghost use Rattle.orc_watch.specs.WatchGrammar.{Refuses};

use crate::Ended;
use crate::answer::{Answer, Setup, leave};
use crate::refusing::refuse_file;
use orc_board::Gate;
use orc_fault::NoMemory;
use orc_job_files::FileRefused;
use orc_options::Settings;
use orc_watch::{CellNumbers, WatchLines, read_watch, watch_text};
use orc_watch_domain::{WatchFinished, watch_new_cell};
use std::sync::Wait;
use std::thread::Threads;

impl<R: Threads + Wait + Sync, G: Gate + Sync> Setup<'_, R, G> {
    // What came of the lines of these bytes, or why nothing did.
    pub(crate) fn answer_watch(&self, bytes: &[u8], ended: &mut Ended) -> Result<Answer, NoMemory>
        requires ranges { AreInRange self.now.settings }
        requires nothing { ended.old ≡ Ended.Nothing }
        ensures answered { IfOk result (λ a. AnswersWatch self.now.settings bytes.now ended.new a.status a.text
            ⊎ RefusesSize (Refuses bytes.now FileRefused.TooMany) ended.new a.status a.text) }
        ensures unanswered { IfErr result (λ _. ended.new ≡ Ended.Nothing) }
    {
        match read_watch(self.alloc, bytes) {
            Ok(lines) => self.watch(&lines, ended),
            Err(fault) => refuse_file(self.alloc, fault),
        }
    }

    // Works through these lines, and tells what came of them.
    fn watch(&self, lines: &WatchLines, ended: &mut Ended) -> Result<Answer, NoMemory>
        requires ranges { AreInRange self.now.settings }
        requires few { length lines.now ≤ 65535 }
        requires nothing { ended.old ≡ Ended.Nothing }
        ensures answered { IfOk result (λ a. (a.status ≡ 0) × HasWatched lines.now self.now.settings ended.new a.text) }
        ensures unanswered { IfErr result (λ _. ended.new ≡ Ended.Nothing) }
    {
        let Settings { posters, rows, .. } = self.settings;
        let finished = watch_new_cell(self.rt, self.alloc, lines, posters, rows, self.gate)?;
        let numbers = numbers_at_rest(self.settings.rest, &finished);
        let text = watch_text(
            self.alloc,
            &finished.replies,
            finished.now_left,
            finished.now_right,
            numbers.as_ref(),
        );
        leave(Ended::Watch(finished), text, ended)
    }
}

// What is at rest after a watch, where it is asked for.
fn numbers_at_rest(asked: bool, finished: &WatchFinished) -> Option<CellNumbers>
    ensures { result ≡ (if asked then Some (cell_numbers finished.now) else None) }
{
    if !asked {
        return None;
    }
    Some(CellNumbers {
        given: finished.cell.given(),
        reused: finished.cell.reused(),
        linked: finished.cell.linked(),
    })
}
