//! Worked examples of the definitions.
ghost use Rattle.std.specs.Prelude.{◌≡◌, ◌++◌, ◌∷◌, [], codes, false, true, None, Some};
ghost use Rattle.orc_board.specs.{declared.replies.{PostWord.{PostWord}, TakeWord.{TakeWord}}};
ghost use Rattle.orc_jobs.specs.{declared.line.{Job.{Job}, Line.{Line}}};
ghost use Rattle.orc_report.specs.{Report.{by_position, report_of}, Summary.{summary_of}};

use orc_board::TakeWord;

// The report of no line.
fn empty_report()
    ensures { report_of [] [] [] None ≡ codes "board\nreplies\n" }
{}

// Two claims, of which the later position was reported first.
fn board_in_order()
    ensures { by_position (record { taker = 0; at = 1; line = 0; rush = false; what = TakeWord.Void }
        ∷ record { taker = 1; at = 0; line = 2; rush = false; what = TakeWord.Done 5 } ∷ [])
        ≡ record { taker = 1; at = 0; line = 2; rush = false; what = TakeWord.Done 5 }
        ∷ record { taker = 0; at = 1; line = 0; rush = false; what = TakeWord.Void } ∷ [] }
{}

// A post, a rush and a drop of the post, with one poster, and what is at rest.
fn report_with_rush()
    ensures { report_of (Line.Post 1 Job.Bytes (codes "a") ∷ Line.Rush 2 Job.Bytes (codes "bb") ∷ Line.Drop 1 ∷ [])
        (record { poster = 1; line = 0; what = PostWord.Posted 0 } ∷ record { poster = 1; line = 1; what = PostWord.Rushed 0 }
        ∷ record { poster = 1; line = 2; what = PostWord.Dropped } ∷ [])
        (record { taker = 0; at = 0; line = 1; rush = true; what = TakeWord.Done 2 }
        ∷ record { taker = 0; at = 0; line = 0; rush = false; what = TakeWord.Void } ∷ [])
        (Some (record {
          queue_given = 2;
          queue_reused = 1;
          queue_linked = 1;
          rush_given = 2;
          rush_reused = 1;
          rush_linked = 1;
          set_given = 2;
          set_reused = 2;
          set_linked = 0;
        }))
        ≡ codes "board\n0 line 0 id 1 void\nrush\n0 line 1 id 2 done 2\nreplies\n"
        ++ codes "poster 1 line 0 posted 0\nposter 1 line 1 rushed 0\nposter 1 line 2 dropped\ntaker 0 rush 0 done 2\ntaker 0 at 0 void\n"
        ++ codes "rest\nqueue given 2 reused 1 linked 1\nrush given 2 reused 1 linked 1\nset given 2 reused 2 linked 0\n" }
{}

// The summary of no job.
fn empty_summary()
    ensures { summary_of [] ≡ codes "done 0\n" }
{}

// Operations stand in order of their first job.
fn summary_in_order()
    ensures { summary_of ((Job.Words, 2) ∷ (Job.Bytes, 1) ∷ (Job.Words, 3) ∷ [])
        ≡ codes "done 3\nwords jobs 2 total 5\nbytes jobs 1 total 1\n" }
{}
