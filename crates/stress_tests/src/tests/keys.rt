//! A set of one agent that answers wrong once.

use super::asked;
use orc_stress::{Ask, Container, Counts, Outcome, drive, judge};
use std::alloc::Global;
use std::test::Fail;
use std::thread::Threads;
use std::time::{Clock, Instant};

// A set of keys below 64 for one agent, whose keys lie in its pass. Once this key is asked for, the answer is turned round.
#[derive(Drop)]
struct Drawer {
    wrong: u64,
}

// The keys that lie in a drawer, each a bit, and whether an answer was turned round.
#[derive(Drop)]
struct Keys {
    keys: u64,
    turned: bool,
}

impl Drawer {
    // Asks for a key.
    fn find(&self, p: &mut Keys, key: u64) -> Outcome {
        let turns = key == self.wrong && !p.turned;
        p.turned = p.turned || turns;
        if (p.keys & (1 << (key % 64)) != 0) != turns {
            Outcome::Found
        } else {
            Outcome::Unchanged
        }
    }
}

impl Container for Drawer {
    type Pass = Keys;

    type Hold = ();

    ghost ready = { λ c p. Unit {0} };

    ghost agent_of = { λ c p. 0 };

    ghost stopped = { λ c hold p. Unit {0} };

    fn agent(&self, _p: &Keys) -> u32 {
        0
    }

    fn call(&self, p: &mut Keys, ask: &Ask) -> Outcome {
        match ask {
            Ask::Give(key) | Ask::GiveAndStop(key) => {
                let bit = 1 << (*key % 64);
                if p.keys & bit != 0 {
                    return Outcome::Unchanged;
                }
                p.keys |= bit;
                Outcome::Inserted(*key)
            }
            Ask::Take(key) | Ask::TakeAndStop(key) => {
                let bit = 1 << (*key % 64);
                if p.keys & bit == 0 {
                    return Outcome::Unchanged;
                }
                p.keys &= !bit;
                Outcome::Removed(*key)
            }
            Ask::Read(key) => self.find(p, *key),
            _ => Outcome::Unchanged,
        }
    }

    fn backlog(&self, _p: &Keys) -> u32 {
        0
    }

    fn stop(&self, _p: &mut Keys) -> ((), Outcome) {
        ((), Outcome::Unchanged)
    }

    fn go_on(&self, _p: &mut Keys, _hold: ()) -> u32 {
        0
    }
}

// Whether the calls of one agent on a drawer are told to be right, where the first answer about this key is wrong.
fn is_right<R: Threads + Clock + Print + Sync>(
    rt: &R,
    alloc: Global,
    wrong: u64,
) -> Result<bool, Fail> {
    let words = [
        "--container=set",
        "--domain=plain",
        "--threads=1",
        "--calls=500",
        "--keys=16",
    ];
    let Ok(settings) = asked(alloc, words.as_slice())? else {
        return Ok(false);
    };
    let keys = Keys {
        keys: 0,
        turned: false,
    };
    let passes = vec![in alloc; keys]?;
    let instant = Instant::now(rt)?;
    let drawer = Drawer { wrong };
    let (_passes, driven) = drive(rt, alloc, &drawer, passes, &settings.plan, instant)?;
    let counts = Counts {
        given: 0,
        reused: 0,
        linked: 0,
    };
    Ok(judge(rt, &settings, &driven, &counts)?)
}

// Of a single agent keys 1 and 9 are its own, and no other: of those one wrong answer is told. No key is 16.
#[test]
fn answers_about_ones_own_keys_are_judged(rt: HostRuntime) -> Result<(), Fail> {
    for (wrong, right) in [(16, true), (8, true), (1, false), (9, false)] {
        let judged = is_right(&rt, rt.alloc(), wrong)?;
        assert_eq!(rt; judged, right, "{wrong}");
    }
    Ok(())
}
