//! Mode make: generated work is written as a job file.
ghost use Rattle.std.specs.Prelude.{◌≡◌, IfOk};
ghost use Rattle.orc_options.specs.Settings.{AreInRange};
ghost use Rattle.orc_program.specs.Answers.{made_text};

use crate::answer::Answer;
use orc_fault::NoMemory;
use orc_job_files::{lines_text, make_lines};
use orc_options::Settings;
use std::alloc::Global;

// The text of the lines that are generated from the settings' seed.
pub(crate) fn answer_make(alloc: Global, settings: Settings) -> Result<Answer, NoMemory>
    requires { AreInRange settings }
    ensures { IfOk result (λ a. (a.status ≡ 0) × (a.text ≡ made_text settings)) }
{
    let made = make_lines(alloc, settings.seed, settings.lines)?;
    let text = lines_text(alloc, &made)?;
    Ok(Answer { status: 0, text })
}
