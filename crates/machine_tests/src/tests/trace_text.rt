//! Worked examples of the definitions, computed by hand and proved, and a trace that is read line by line.

ghost use Rattle.std.specs.Prelude.{◌≡◌, ◌≢◌, ◌∷◌, [], Some, None, true, false, codes};
ghost use Rattle.orc_core.specs.{declared.ops.{Op.{Op}, CounterUse.{CounterUse}}};
ghost use Rattle.orc_words.specs.declared.place.Word.{Word};
ghost use Rattle.orc_trace_text.specs.{
  FirstLines.{IsFirstOut},
  Reading.{Cuts, words_in, words_left},
  TraceText.{IsReadable, IsShapeText, step_line, place_text, link_text, steps_text},
};

use orc_core::{CounterUse, Op};
use orc_trace_text::*;
use orc_words::{RowLink, Shape, Word};
use std::process::Abort;
use std::test::Fail;

// Places, links and steps.
fn lines()
    ensures root { place_text (Word.Root 3) ≡ codes "r3" }
    ensures row { place_text (Word.Next 3) ≡ codes "n3" }
    ensures side { place_text (Word.Side 3) ≡ codes "s3" }
    ensures no_place { place_text (Word.Gate 3) ≡ [] }
    ensures marked { link_text (record { to = Some 2; mark = true }) ≡ codes "2m" }
    ensures null { link_text (record { to = None; mark = false }) ≡ codes "-" }
    ensures not_marked { link_text (record { to = Some 2; mark = false }) ≢ codes "2m" }
    ensures publish { step_line 1 (Op.Publish 2 0) ≡ codes "1 publish 2 0" }
    ensures cas { step_line 0 (Op.LinkCas (Word.Next 0) (record { to = None; mark = false }) (record { to = Some 1; mark = true })) ≡ codes "0 cas n0 - 1m" }
    ensures store { step_line 0 (Op.LinkStore 1 (record { to = None; mark = false }) 0) ≡ codes "0 store 1 -" }
    ensures side_store { step_line 0 (Op.LinkStore 1 (record { to = Some 0; mark = false }) 1) ≡ codes "0 side 1 0" }
    ensures moveon { step_line 1 (Op.MoveOn 2 0) ≡ codes "1 moveon 2 0" }
    ensures handover { step_line 1 (Op.HandoverLook 2) ≡ codes "1 handover 2" }
    ensures decheld { step_line 0 (Op.DecHeld 1) ≡ codes "0 decheld 1" }
    ensures steps { steps_text ((0, Op.Enroll) ∷ (0, Op.CounterLoad 0 CounterUse.Start) ∷ []) ≡ codes "0 enroll\n0 start 0\n" }
{}

// With one link there are two spellings.
fn first_lines()
    ensures two_links { IsShapeText (record { rows = 2; roots = 1; agents = 3; limit = 8; links = 2 }) (codes "shape 2 1 3 8 2") }
    ensures one_link { IsShapeText (record { rows = 2; roots = 1; agents = 3; limit = 8; links = 1 }) (codes "shape 2 1 3 8 1") }
    ensures unsaid { IsShapeText (record { rows = 2; roots = 1; agents = 3; limit = 8; links = 1 }) (codes "shape 2 1 3 8") }
    ensures not_unsaid { ¬ IsShapeText (record { rows = 2; roots = 1; agents = 3; limit = 8; links = 2 }) (codes "shape 2 1 3 8") }
{}

// Two agents have sixteen scan places and eight slots each.
fn ranges()
    ensures last_slot { IsReadable (record { rows = 2; roots = 1; agents = 2; limit = 8; links = 1 }) (1, Op.Clear 7) }
    ensures ninth_slot { ¬ IsReadable (record { rows = 2; roots = 1; agents = 2; limit = 8; links = 1 }) (1, Op.Clear 8) }
    ensures third_agent { ¬ IsReadable (record { rows = 2; roots = 1; agents = 2; limit = 8; links = 1 }) (2, Op.Clear 7) }
    ensures last_scan_place { IsReadable (record { rows = 2; roots = 1; agents = 2; limit = 8; links = 1 }) (0, Op.Hand 15) }
    ensures past_the_end { ¬ IsReadable (record { rows = 2; roots = 1; agents = 2; limit = 8; links = 1 }) (0, Op.Hand 16) }
    ensures no_link { ¬ IsReadable (record { rows = 2; roots = 1; agents = 2; limit = 8; links = 1 }) (0, Op.LinkLoad (Word.Gate 0) None) }
    ensures side { IsReadable (record { rows = 2; roots = 1; agents = 2; limit = 8; links = 2 }) (0, Op.LinkLoad (Word.Side 1) None) }
    ensures no_side { ¬ IsReadable (record { rows = 2; roots = 1; agents = 2; limit = 8; links = 1 }) (0, Op.LinkLoad (Word.Side 1) None) }
    ensures no_side_store { ¬ IsReadable (record { rows = 2; roots = 1; agents = 2; limit = 8; links = 1 }) (0, Op.LinkStore 0 (record { to = None; mark = false }) 1) }
    ensures first_out { IsFirstOut (record { rows = 2; roots = 0; agents = 17; limit = 8; links = 1 }) ShapeWord.Roots }
    ensures not_first { ¬ IsFirstOut (record { rows = 2; roots = 0; agents = 17; limit = 8; links = 1 }) ShapeWord.Agents }
{}

// What a reader sees of a line.
fn words()
    ensures cut { Cuts 32 (codes "0 look 1") (codes "0") (Some (codes "look 1")) }
    ensures not_cut_later { ¬ Cuts 32 (codes "0 look 1") (codes "0 look") (Some (codes "1")) }
    ensures two { words_in (codes "look 1") ≡ codes "look" ∷ codes "1" ∷ [] }
    ensures empty { words_in (codes "look ") ≡ codes "look" ∷ [] ∷ [] }
    ensures none { words_left None ≡ [] }
{}

// The op of the first of these lines, a step of this agent, and the lines behind it.
fn step_of<'a>(rt: &impl Abort, shape: &Shape, lines: &'a [u8], agent: u32) -> (Op, &'a [u8]) {
    let Some((found, op, rest)) = first_step(shape, lines) else {
        panic!(rt; "a step of agent {agent}")
    };
    assert_eq!(rt; found, agent);
    (op, rest)
}

#[test]
fn a_trace_is_read_line_by_line(rt: HostRuntime) -> Result<(), Fail> {
    let text = "shape 2 1 3 8 2\n0 enroll\n2 load s1 7\n1 cas r0 - 1m\n1 end 0\n0 side 0 1\n";
    let Ok((shape, lines)) = read_shape(text.as_bytes()) else {
        panic!(rt; "a shape line")
    };
    assert_eq!(rt; shape.agents(), 3);
    let (op, rest) = step_of(&rt, &shape, lines, 0);
    assert!(rt; matches!(op, Op::Enroll));
    let (op, rest) = step_of(&rt, &shape, rest, 2);
    assert!(rt;
        matches!(
            op,
            Op::LinkLoad {
                place: Word::Side(1),
                slot: Some(7)
            }
        )
    );
    let (op, rest) = step_of(&rt, &shape, rest, 1);
    assert!(rt;
        matches!(
            op,
            Op::LinkCas {
                place: Word::Root(0),
                from: RowLink {
                    to: None,
                    mark: false
                },
                to: RowLink {
                    to: Some(1),
                    mark: true
                }
            }
        )
    );
    let (op, rest) = step_of(&rt, &shape, rest, 1);
    assert!(rt;
        matches!(
            op,
            Op::CounterLoad {
                row: 0,
                how: CounterUse::End
            }
        )
    );
    let (op, rest) = step_of(&rt, &shape, rest, 0);
    assert!(rt;
        matches!(
            op,
            Op::LinkStore {
                row: 0,
                number: 1,
                link: RowLink {
                    to: Some(1),
                    mark: false
                }
            }
        )
    );
    assert_eq!(rt; rest.len(), 0);
    Ok(())
}
