//! The memory of a team, all of which is taken before its first worker starts.
ghost use Rattle.std.specs.Prelude.{◌≡◌, ◌<◌, ◌≤◌, Bool, IfOk, vec_len};
ghost use Rattle.orc_team.specs.Seats.{AreRooms, IsEmptyRoom, IsReserved, items_of, reply_of, spare_of};

use crate::{Gather, Worker};
use orc_board::{PostList, ReplyList};
use orc_fault::NoMemory;
use std::alloc::Global;

/// What a team needs: room for the replies of each worker, and lists of workers before and after their work.
#[derive(Drop)]
pub struct Reserved<D, T> {
    /// A room for each worker, in order from agent 1.
    pub rooms: Vec<T>,
    /// Room for the workers that wait.
    pub waiting: Vec<Worker<D, T>>,
    /// Room for the workers that are done.
    pub done: Vec<Worker<D, T>>,
}

/// Room for the replies of one worker, a poster or one that takes jobs. It serves for the replies of all as well.
#[derive(Drop)]
pub struct Room<X> {
    /// What came of its lines; one that takes jobs has none.
    pub posts: PostList,
    /// What came of the jobs that it took; a poster has none.
    pub takes: ReplyList<X>,
}

impl<X: Drop> Gather for Room<X> {
    ghost Kind = { Bool };

    ghost Reply = { reply_of X };

    ghost items = { items_of };

    ghost spare = { spare_of };

    fn gather(&mut self, more: Self) {
        let Room { posts, takes } = more;
        self.posts.append(posts);
        self.takes.append(takes);
    }
}

/// Takes the memory of a team with so many workers, each with the room that `room` makes for its number.
pub fn reserve<D: Drop, T: Drop, F: Fn(usize) -> Result<T, NoMemory>>(
    alloc: Global,
    workers: usize,
    room: &F,
) -> Result<Reserved<D, T>, NoMemory>
    requires { F.IsAlwaysCallable room.now }
    ensures { IfOk result (IsReserved F.Fn room.now workers) }
{
    Ok(Reserved {
        rooms: reserve_rooms(alloc, workers, room)?,
        waiting: Vec::with_capacity(alloc, workers)?,
        done: Vec::with_capacity(alloc, workers)?,
    })
}

// Takes room for the replies of each worker, in order from agent 1.
fn reserve_rooms<T: Drop, F: Fn(usize) -> Result<T, NoMemory>>(
    alloc: Global,
    workers: usize,
    room: &F,
) -> Result<Vec<T>, NoMemory>
    requires { F.IsAlwaysCallable room.now }
    ensures rooms { IfOk result (λ v. AreRooms F.Fn room.now 1 v.items) }
    ensures all { IfOk result (λ v. vec_len v ≡ workers) }
{
    let mut rooms = Vec::with_capacity(alloc, workers)?;
    for index in 0..workers {
        let made = room(index + 1)?;
        rooms.push(made)?;
    }
    Ok(rooms)
}

/// Takes room for the replies of a poster to so many lines, or for those of another worker to so many jobs.
///
/// # Errors
///
/// `NoMemory` where memory is refused.
pub fn reserve_room<X: Drop>(
    alloc: Global,
    posters: u32,
    agent: usize,
    lines: usize,
    jobs: usize,
) -> Result<Room<X>, NoMemory>
    ensures { IfOk result (IsEmptyRoom posters lines jobs agent) }
{
    let (post_room, take_room) = rooms_of(agent, posters, lines, jobs);
    let posts = PostList::new(alloc, post_room)?;
    let takes = ReplyList::new(alloc, take_room)?;
    Ok(Room { posts, takes })
}

// For how many posts and takes an agent needs room.
fn rooms_of(agent: usize, posters: u32, lines: usize, jobs: usize) -> (usize, usize)
    ensures poster { agent ≤ posters → result ≡ (lines, 0) }
    ensures other { posters < agent → result ≡ (0, jobs) }
{
    if agent <= posters as usize {
        (lines, 0)
    } else {
        (0, jobs)
    }
}
