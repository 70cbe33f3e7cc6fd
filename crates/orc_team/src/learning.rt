//! A desk learns from the desks of all others.
ghost use Rattle.std.specs.Prelude.{◌≡◌, vec_len};
ghost use Rattle.std.specs.List.{AllByRecursion};
ghost use Rattle.orc_history.specs.Lists.{Pairwise};
ghost use Rattle.orc_team.specs.Learning.{IsOther, LearnsAll, LearnsOnce, SameWorker};

use crate::{Worker, Workplace};

// The desk learns from that of each of the others once.
fn learn_once<C: Workplace, T>(
    here: &C,
    me: u32,
    desk: &mut C::Desk,
    others: &mut [Worker<C::Desk, T>],
)
    requires desk { (C.site here.now).usable me desk.old }
    requires others { AllByRecursion (IsOther (C.site here.now) me) others.old }
    ensures desk { (C.site here.now).usable me desk.new }
    ensures others { AllByRecursion (IsOther (C.site here.now) me) others.new }
    ensures same { Pairwise SameWorker others.old others.new }
    ensures learned { LearnsOnce (C.site here.now) me desk.old desk.new others.old others.new }
{
    let Some((first, rest)) = others.split_first_mut() else {
        return;
    };
    here.learn(me, desk, first.agent, &mut first.desk);
    learn_once(here, me, desk, rest);
}

/// The desk learns from that of each of these workers twice over: all have then seen the same.
pub fn learn_from_team<C: Workplace, T>(
    here: &C,
    me: u32,
    desk: &mut C::Desk,
    others: &mut Vec<Worker<C::Desk, T>>,
)
    requires desk { (C.site here.now).usable me desk.old }
    requires others { AllByRecursion (IsOther (C.site here.now) me) others.old.items }
    ensures desk { (C.site here.now).usable me desk.new }
    ensures others { AllByRecursion (IsOther (C.site here.now) me) others.new.items }
    ensures same { Pairwise SameWorker others.old.items others.new.items }
    ensures len { vec_len others.new ≡ vec_len others.old }
    ensures learned { LearnsAll (C.site here.now) me desk.old desk.new others.old.items others.new.items }
{
    let workers = others.as_mut_slice();
    learn_once(here, me, desk, workers);
    learn_once(here, me, desk, workers)
}
