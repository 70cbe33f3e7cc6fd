//! Worked examples of the definitions, computed by hand and proved.

ghost use Rattle.std.specs.Prelude.{◌≡◌, ◌≢◌, [], codes};
ghost use Rattle.orc_trace.specs.{Answers.{fault_line, replay_line}, Replay.{RefusesTrace}};

use orc_trace::{ShapeWord, TraceFault};

// The lines that are written.
fn answers()
    ensures played { replay_line (record { steps = 9; census = record { out = 1; retired = 0; handed = 2; listed = 3; linked = 4 } }) ≡ codes "steps 9 out 1 retired 0 handed 2 listed 3 linked 4\n" }
    ensures shape { fault_line (TraceFault.Shape ShapeWord.Agents) ≡ codes "shape: agents\n" }
    ensures unreadable { fault_line (TraceFault.Unreadable 4) ≡ codes "step 4: unreadable\n" }
    ensures not_allowed { fault_line (TraceFault.NotAllowed 5) ≢ codes "step 4: not allowed\n" }
    ensures memory { fault_line TraceFault.NoMemory ≡ [] }
    ensures empty { RefusesTrace [] (TraceFault.Shape ShapeWord.Unreadable) }
    ensures not_rows { ¬ RefusesTrace [] (TraceFault.Shape ShapeWord.Rows) }
    ensures no_step { ¬ RefusesTrace [] (TraceFault.Unreadable 0) }
{}
