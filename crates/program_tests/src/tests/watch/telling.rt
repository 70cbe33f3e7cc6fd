//! Replies are told as text.

use orc_fault::NoMemory;
use orc_watch::{CellNumbers, WatchList, WatchReply, WatchWord, watch_text};
use std::alloc::Global;
use std::test::Fail;

// A reply of this worker.
fn reply(worker: u32, line: u32, what: WatchWord) -> WatchReply {
    WatchReply { worker, line, what }
}

// A reply of each kind.
fn replies(alloc: Global) -> Result<WatchList, NoMemory> {
    let mut replies = WatchList::new(alloc, 4)?;
    for one in [
        reply(1, 0, WatchWord::Set(5, 0)),
        reply(1, 2, WatchWord::NoNode),
        reply(2, 1, WatchWord::Saw(5, 0)),
        reply(2, 3, WatchWord::Spent),
    ] {
        if replies.spare() != 0 {
            replies.push(one);
        }
    }
    Ok(replies)
}

const TOLD: &[u8] =
    b"watch\nworker 1 line 0 set 5 0\nworker 1 line 2 nonode\nworker 2 line 1 saw 5 0\nworker 2 line 3 spent\nnow 5 0\n";

const REST: &[u8] = b"rest\ncell given 8 reused 5 linked 3\n";

#[test]
fn each_reply_has_a_line(rt: HostRuntime) -> Result<(), Fail> {
    let replies = replies(rt.alloc())?;
    let text = watch_text(rt.alloc(), &replies, 5, 0, None)?;
    assert!(rt; text.bytes() == TOLD);
    let rest = CellNumbers {
        given: 8,
        reused: 5,
        linked: 3,
    };
    let text = watch_text(rt.alloc(), &replies, 5, 0, Some(&rest))?;
    assert!(rt; text.bytes().starts_with(TOLD));
    assert!(rt; text.bytes().ends_with(REST));
    assert!(rt; text.len() == TOLD.len() + REST.len());
    Ok(())
}
