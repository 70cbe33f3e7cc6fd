//! The calls of a queue, of a set and of a cell, as a container is driven.

ghost use Rattle.std.specs.Prelude.{◌≡◌, ◌≢◌, ◌⊎◌, None};
ghost use Rattle.orc_cell.specs.CellCalls.{IsUsable};
ghost use Rattle.orc_heap.specs.Domains.{agent};

use orc_cell::{Cell, CellRefused};
use orc_fault::Again;
use orc_heap::Links;
use orc_history::{ListRefused, QueueRefused, SharedQueue, SharedSet};
use orc_pairs_rule::Pairs;
use orc_stress::{Answer, Ask, Outcome};

// Puts a job at the back, or takes the one at the front, in so many tries.
pub(crate) fn call_queue<Q: SharedQueue>(
    queue: &Q,
    p: &mut Q::Pass,
    ask: &Ask,
    turns: u64,
) -> Outcome
    requires { Q.usable queue.now p.old }
    ensures usable { Q.usable queue.now p.new }
    ensures agent { Q.agent_of queue.now p.new ≡ Q.agent_of queue.now p.old }
{
    match ask {
        Ask::Give(job) | Ask::GiveAndStop(job) => put_job(queue, p, *job, turns),
        _ => take_job(queue, p, turns),
    }
}

// Puts a job at the back.
fn put_job<Q: SharedQueue>(queue: &Q, p: &mut Q::Pass, job: u64, turns: u64) -> Outcome
    requires { Q.usable queue.now p.old }
    ensures usable { Q.usable queue.now p.new }
    ensures agent { Q.agent_of queue.now p.new ≡ Q.agent_of queue.now p.old }
{
    match queue.enqueue(p, job, turns) {
        Ok(at) => Outcome::Put(job, at),
        Err(QueueRefused::Again) => Outcome::Refused(Answer::Again),
        Err(QueueRefused::NoNode) => Outcome::Refused(Answer::NoNode),
        Err(QueueRefused::Positions) => Outcome::Refused(Answer::Positions),
    }
}

// Takes the job at the front.
fn take_job<Q: SharedQueue>(queue: &Q, p: &mut Q::Pass, turns: u64) -> Outcome
    requires { Q.usable queue.now p.old }
    ensures usable { Q.usable queue.now p.new }
    ensures agent { Q.agent_of queue.now p.new ≡ Q.agent_of queue.now p.old }
{
    match queue.dequeue(p, turns) {
        Ok(Some((job, at))) => Outcome::Taken(job, at),
        Ok(None) => Outcome::Empty,
        Err(Again) => Outcome::Refused(Answer::Again),
    }
}

// Inserts a key, removes one, or asks for one, in so many tries.
pub(crate) fn call_set<S: SharedSet>(set: &S, p: &mut S::Pass, ask: &Ask, turns: u64) -> Outcome
    requires { S.usable set.now p.old }
    ensures usable { S.usable set.now p.new }
    ensures agent { S.agent_of set.now p.new ≡ S.agent_of set.now p.old }
{
    match ask {
        Ask::Give(key) | Ask::GiveAndStop(key) => insert_key(set, p, *key, turns),
        Ask::Take(key) | Ask::TakeAndStop(key) => remove_key(set, p, *key, turns),
        Ask::Read(key) => find_key(set, p, *key, turns),
        _ => Outcome::Unchanged,
    }
}

// Inserts a key.
fn insert_key<S: SharedSet>(set: &S, p: &mut S::Pass, key: u64, turns: u64) -> Outcome
    requires { S.usable set.now p.old }
    ensures usable { S.usable set.now p.new }
    ensures agent { S.agent_of set.now p.new ≡ S.agent_of set.now p.old }
{
    inserted(key, set.insert(p, key, turns))
}

// What an insert of the key did.
pub(crate) fn inserted(key: u64, answer: Result<bool, ListRefused>) -> Outcome {
    match answer {
        Ok(true) => Outcome::Inserted(key),
        Ok(false) => Outcome::Unchanged,
        Err(ListRefused::Again) => Outcome::Refused(Answer::Again),
        Err(ListRefused::NoNode) => Outcome::Refused(Answer::NoNode),
        Err(ListRefused::Spent(_)) => Outcome::Refused(Answer::Spent),
    }
}

// Removes a key.
fn remove_key<S: SharedSet>(set: &S, p: &mut S::Pass, key: u64, turns: u64) -> Outcome
    requires { S.usable set.now p.old }
    ensures usable { S.usable set.now p.new }
    ensures agent { S.agent_of set.now p.new ≡ S.agent_of set.now p.old }
{
    match set.remove(p, key, turns) {
        Ok(true) => Outcome::Removed(key),
        Ok(false) => Outcome::Unchanged,
        Err(Again) => Outcome::Refused(Answer::Again),
    }
}

// Asks for a key.
fn find_key<S: SharedSet>(set: &S, p: &mut S::Pass, key: u64, turns: u64) -> Outcome
    requires { S.usable set.now p.old }
    ensures usable { S.usable set.now p.new }
    ensures agent { S.agent_of set.now p.new ≡ S.agent_of set.now p.old }
{
    match set.contains(p, key, turns) {
        Ok(true) => Outcome::Found,
        Ok(false) => Outcome::Unchanged,
        Err(Again) => Outcome::Refused(Answer::Again),
    }
}

// Publishes parts of a cell, or reads both, in so many tries.
pub(crate) fn call_cell<L: Links<Rule = Pairs>>(
    cell: &Cell<L>,
    p: &mut L::Pass,
    ask: &Ask,
    turns: u64,
) -> Outcome
    requires { IsUsable L.Links cell.now.links p.old }
    ensures usable { IsUsable L.Links cell.now.links p.new }
    ensures agent { agent L.Links cell.now.links p.new ≡ agent L.Links cell.now.links p.old }
{
    match ask {
        Ask::Left(value) => publish(cell, p, Some(*value), None, turns),
        Ask::Right(value) => publish(cell, p, None, Some(*value), turns),
        Ask::Both(value) => publish(cell, p, Some(*value), Some(*value), turns),
        _ => read(cell, p, turns),
    }
}

// Publishes parts.
fn publish<L: Links<Rule = Pairs>>(
    cell: &Cell<L>,
    p: &mut L::Pass,
    left: Option<u64>,
    right: Option<u64>,
    turns: u64,
) -> Outcome
    requires usable { IsUsable L.Links cell.now.links p.old }
    requires given { (left ≢ None) ⊎ (right ≢ None) }
    ensures usable { IsUsable L.Links cell.now.links p.new }
    ensures agent { agent L.Links cell.now.links p.new ≡ agent L.Links cell.now.links p.old }
{
    match cell.publish(p, left, right, turns) {
        Ok((left, right)) => Outcome::Published(left, right),
        Err(CellRefused::Again) => Outcome::Refused(Answer::Again),
        Err(CellRefused::NoNode) => Outcome::Refused(Answer::NoNode),
        Err(CellRefused::Spent(_)) => Outcome::Refused(Answer::Spent),
    }
}

// Reads both parts.
fn read<L: Links<Rule = Pairs>>(cell: &Cell<L>, p: &mut L::Pass, turns: u64) -> Outcome
    requires { IsUsable L.Links cell.now.links p.old }
    ensures usable { IsUsable L.Links cell.now.links p.new }
    ensures agent { agent L.Links cell.now.links p.new ≡ agent L.Links cell.now.links p.old }
{
    match cell.read(p, turns) {
        Ok((left, right)) => Outcome::Saw(left, right),
        Err(Again) => Outcome::Refused(Answer::Again),
    }
}
