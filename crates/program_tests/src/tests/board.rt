//! Runs over the plain containers, with the replies that the rules of the board give by hand.
ghost use Rattle.std.specs.Prelude.{IfOk};
ghost use Rattle.orc_jobs.specs.GoodLines.{AreGood};
ghost use Rattle.orc_board.specs.Desk.{IsDesk};

mod examples;

use super::{are_replies, lines_of, plain_queue, plain_set};
use orc_board::{
    Desk, Gate, OpenGate, PostList, PostWord, Replies, TakeList, TakeReply, TakeWord, post_records,
    reply_to, take_one, take_rest,
};
use orc_fault::NoMemory;
use orc_history::{PlainQueue, PlainQueuePass, PlainSet, PlainSetPass, SharedQueue, SharedSet};
use orc_jobs::Lines;
use std::alloc::Global;
use std::cell::Cell;
use std::sync::Wait;
use std::test::Fail;

// All three containers, and a desk over them.
#[derive(Drop)]
struct Board {
    queue: PlainQueue,
    rush: PlainQueue,
    set: PlainSet,
    desk: Desk<PlainQueuePass, PlainSetPass>,
}

// An empty board, and a desk of agent 1.
fn empty_board(alloc: Global, queue_room: u32, set_room: u32) -> Result<Board, NoMemory>
    ensures { IfOk result (λ b. IsDesk ⟦<PlainQueue as SharedQueue>⟧ ⟦<PlainSet as SharedSet>⟧ b.queue b.rush b.set 1 b.desk) }
{
    let (queue, queue_pass) = plain_queue(alloc, queue_room, 0)?;
    let (rush, rush_pass) = plain_queue(alloc, queue_room, 0)?;
    let (set, set_pass) = plain_set(alloc, set_room)?;
    Ok(Board {
        queue,
        rush,
        set,
        desk: Desk {
            queue: queue_pass,
            rush: rush_pass,
            set: set_pass,
        },
    })
}

// A gate that notes each call by two digits, the worker's and the call's.
#[derive(Drop)]
struct NotingGate {
    calls: Cell<u64>,
}

impl Gate for NotingGate {
    fn before(&self, worker: u32, call: u64) {
        let digits = (10 * worker as u64).wrapping_add(call);
        self.calls
            .set(self.calls.get().wrapping_mul(100).wrapping_add(digits));
    }
}

// What one poster and then taker 0 do with these lines.
fn work_through<R: Wait, G: Gate>(
    rt: &R,
    alloc: Global,
    text: &[u8],
    gate: &G,
) -> Result<Replies, NoMemory> {
    let lines = lines_of(alloc, text)?;
    let mut posts = PostList::new(alloc, lines.len())?;
    let mut takes = TakeList::new(alloc, 5)?;
    let Board {
        queue,
        rush,
        set,
        mut desk,
    } = empty_board(alloc, 8, 8)?;
    post_records(
        rt, &queue, &rush, &set, &mut desk, 1, 1, &lines, gate, &mut posts,
    );
    desk.queue.act_as(0);
    desk.rush.act_as(0);
    desk.set.act_as(0);
    take_rest(
        rt, &queue, &rush, &set, &mut desk, 0, &lines, gate, &mut takes,
    );
    Ok(Replies { posts, takes })
}

// A claim from the queue, or from the rush queue.
fn claim(taker: u32, rush: bool, at: u64, line: u32, what: TakeWord) -> TakeReply {
    TakeReply {
        taker,
        at,
        line,
        rush,
        what,
    }
}

#[test]
fn stored_run_of_one_poster(rt: HostRuntime) -> Result<(), Fail> {
    let gate = NotingGate {
        calls: Cell::new(0),
    };
    let text = b"post,7,bytes,hello\npost,9,bytes,abc\ndrop,9\npost,7,bytes,ab\ndrop,8\n";
    let replies = work_through(&rt, rt.alloc(), text, &gate)?;
    let words = [
        PostWord::Posted(0),
        PostWord::Posted(1),
        PostWord::Dropped,
        PostWord::Busy,
        PostWord::Unknown,
    ];
    assert!(rt; are_replies(replies.posts.items(), &words));
    let claims = [
        claim(0, false, 0, 0, TakeWord::Done(5)),
        claim(0, false, 1, 1, TakeWord::Void),
    ];
    assert!(rt; replies.takes.items() == claims.as_slice());
    assert!(rt; replies.takes.spare() == 3);
    assert!(rt; gate.calls.get() == 1011121314_000102);
    Ok(())
}

// The rush job's own opening was dropped, and its claim closes that of the post with the same id.
#[test]
fn the_claim_that_closes_the_opening_is_done(rt: HostRuntime) -> Result<(), Fail> {
    let text = b"rush,1,bytes,bb\ndrop,1\npost,1,bytes,a\n";
    let replies = work_through(&rt, rt.alloc(), text, &OpenGate)?;
    let words = [PostWord::Rushed(0), PostWord::Dropped, PostWord::Posted(0)];
    assert!(rt; are_replies(replies.posts.items(), &words));
    let claims = [
        claim(0, true, 0, 0, TakeWord::Done(2)),
        claim(0, false, 0, 2, TakeWord::Void),
    ];
    assert!(rt; replies.takes.items() == claims.as_slice());
    Ok(())
}

// Posts or drops the line with this number as poster 1, if there is one, and answers what came of it.
fn word_of_line<R: Wait, Q: SharedQueue, S: SharedSet>(
    rt: &R,
    queue: &Q,
    rush: &Q,
    set: &S,
    desk: &mut Desk<Q::Pass, S::Pass>,
    lines: &Lines,
    index: u32,
) -> Option<PostWord>
    requires { IsDesk Q.SharedQueue S.SharedSet queue.now rush.now set.now 1 desk.old }
    ensures { IsDesk Q.SharedQueue S.SharedSet queue.now rush.now set.now 1 desk.new }
{
    if index as usize >= lines.len() {
        return None;
    }
    let line = lines.get(index as usize);
    Some(reply_to(rt, queue, rush, set, desk, 1, index, line).what)
}

// What comes of three lines that agent 1 posts or drops, whether a take without room for replies gives none, and what three takes find.
type ThreeLines = ([Option<PostWord>; 3], bool, [Option<TakeReply>; 3]);

fn three_lines_and_takes<R: Wait, Q: SharedQueue, S: SharedSet>(
    rt: &R,
    alloc: Global,
    queue: &Q,
    rush: &Q,
    set: &S,
    desk: &mut Desk<Q::Pass, S::Pass>,
    taker: u32,
    lines: &Lines,
) -> Result<ThreeLines, NoMemory>
    requires desk { IsDesk Q.SharedQueue S.SharedSet queue.now rush.now set.now 1 desk.old }
    requires good { AreGood lines.now }
{
    let mut none = TakeList::new(alloc, 0)?;
    let words = [
        word_of_line(rt, queue, rush, set, desk, lines, 0),
        word_of_line(rt, queue, rush, set, desk, lines, 1),
        word_of_line(rt, queue, rush, set, desk, lines, 2),
    ];
    take_rest(
        rt, queue, rush, set, desk, taker, lines, &OpenGate, &mut none,
    );
    let claims = [
        take_one(rt, queue, rush, set, desk, taker, lines),
        take_one(rt, queue, rush, set, desk, taker, lines),
        take_one(rt, queue, rush, set, desk, taker, lines),
    ];
    Ok((words, none.is_empty(), claims))
}

// What comes of this file at an empty board.
fn three_lines<R: Wait>(
    rt: &R,
    alloc: Global,
    text: &[u8],
    queue_room: u32,
    set_room: u32,
    taker: u32,
) -> Result<ThreeLines, NoMemory> {
    let lines = lines_of(alloc, text)?;
    let mut board = empty_board(alloc, queue_room, set_room)?;
    three_lines_and_takes(
        rt,
        alloc,
        &board.queue,
        &board.rush,
        &board.set,
        &mut board.desk,
        taker,
        &lines,
    )
}

// The queue has room for one job, and the set for two ids: the id of the second job is closed again.
#[test]
fn second_post_finds_no_place(rt: HostRuntime) -> Result<(), Fail> {
    let text = b"post,7,bytes,hello\npost,9,bytes,abc\ndrop,9\n";
    let (words, is_empty, claims) = three_lines(&rt, rt.alloc(), text, 1, 2, 3)?;
    let wanted = [
        Some(PostWord::Posted(0)),
        Some(PostWord::NoNode),
        Some(PostWord::Unknown),
    ];
    assert!(rt; words == wanted);
    assert!(rt; is_empty);
    let done = claim(3, false, 0, 0, TakeWord::Done(5));
    assert!(rt; claims == [Some(done), None, None]);
    Ok(())
}

// A rush job is taken first, and an id that was dropped makes its claim void.
#[test]
fn rush_job_is_taken_first(rt: HostRuntime) -> Result<(), Fail> {
    let text = b"post,1,bytes,a\nrush,2,bytes,bb\ndrop,1\n";
    let (words, is_empty, claims) = three_lines(&rt, rt.alloc(), text, 8, 8, 0)?;
    let wanted = [
        Some(PostWord::Posted(0)),
        Some(PostWord::Rushed(0)),
        Some(PostWord::Dropped),
    ];
    assert!(rt; words == wanted);
    assert!(rt; is_empty);
    let first = claim(0, true, 0, 1, TakeWord::Done(2));
    let second = claim(0, false, 0, 0, TakeWord::Void);
    assert!(rt; claims == [Some(first), Some(second), None]);
    Ok(())
}
