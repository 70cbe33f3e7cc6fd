//! The lines of a race.

ghost use Rattle.std.specs.Prelude.{IfOk};
ghost use Rattle.orc_jobs.specs.GoodLines.{AreGood};

use crate::laps::no_memory;
use orc_job_files::read_jobs;
use orc_jobs::{Lines, MOST_BYTES};
use std::alloc::Global;
use std::io;

// So many posts, whose ids fall to 0.
pub(crate) fn falling(alloc: Global, posts: u32) -> io::Result<Lines>
    ensures { IfOk result AreGood }
{
    let mut text = String::new(alloc);
    for index in 0..posts {
        let id = posts - 1 - index;
        let line = format!(in alloc; "post,{id},bytes,x\n")?;
        text.push_str(line.as_str())?;
    }
    if text.len() > MOST_BYTES {
        return Err(no_memory());
    }
    match read_jobs(alloc, text.as_bytes()) {
        Ok(lines) => Ok(lines),
        Err(_) => Err(no_memory()),
    }
}
