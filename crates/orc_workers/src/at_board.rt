//! Two queues and a set as what posters and takers work at.
ghost use Rattle.orc_board.specs.Desk.{IsDesk};
ghost use Rattle.orc_workers.specs.Learning.{LawsTell, board_site};

use orc_board::Desk;
use orc_history::{LearnQueue, LearnSet};
use orc_team::Workplace;

// A queue, a rush queue and a set, of each of which a worker has a pass.
#[derive(Drop)]
pub(crate) struct AtBoard<'a, Q, S> {
    pub(crate) queue: &'a Q,
    pub(crate) rush: &'a Q,
    pub(crate) set: &'a S,
}

impl<Q: LearnQueue, S: LearnSet> Workplace for AtBoard<'_, Q, S> {
    type Desk = Desk<Q::Pass, S::Pass>;

    ghost site = { λ at. board_site Q.SharedQueue S.SharedSet at.queue.now at.rush.now at.set.now };

    fn agent(&self, desk: &Desk<Q::Pass, S::Pass>) -> u32 {
        self.queue.agent(&desk.queue)
    }

    fn learn(
        &self,
        me: u32,
        desk: &mut Desk<Q::Pass, S::Pass>,
        other: u32,
        more: &mut Desk<Q::Pass, S::Pass>,
    ) {
        self.queue.learn(&mut desk.queue, &mut more.queue);
        self.rush.learn(&mut desk.rush, &mut more.rush);
        self.set.learn(&mut desk.set, &mut more.set);
    }
}

// What the laws of the containers say of the caller's desk.
pub(crate) fn tell_laws<Q: LearnQueue, S: LearnSet>(
    queue: &Q,
    rush: &Q,
    set: &S,
    desk: &Desk<Q::Pass, S::Pass>,
)
    requires { IsDesk Q.SharedQueue S.SharedSet queue.now rush.now set.now 0 desk.now }
    ensures { LawsTell Q.SharedQueue S.SharedSet queue.now rush.now set.now (Q.agents queue.now) (Q.agents rush.now) (S.agents set.now) desk.now }
{}
