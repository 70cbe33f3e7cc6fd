//! What follows from the definition of a pipeline, and what makes one.
ghost use Rattle.orc_stages.specs.Desks.{view_at};
ghost use Rattle.orc_pipeline.specs.{Pipeline.{AllComeOut}, Ran.{RunsArePipelines}};

use orc_history::SharedQueue;

/// What posters, the workers of stages and a caller that comes last do to some queues forms a pipeline, where each queue was found
/// empty at last, or as many jobs came out of it as there are lines.
pub fn runs_are_pipelines<Q: SharedQueue>(queues: &[Q])
    ensures { RunsArePipelines (view_at Q.SharedQueue queues.now) }
{}

/// Where each job found a place at each stage, all jobs come out of a pipeline, in the order in which they were put into its
/// first queue.
pub fn all_come_out<Q: SharedQueue>(queues: &[Q])
    ensures { AllComeOut (view_at Q.SharedQueue queues.now) }
{}
