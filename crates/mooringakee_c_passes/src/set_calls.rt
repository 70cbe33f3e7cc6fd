//! The calls of any set that agents share, as they are answered to C.

ghost use Rattle.std.specs.Prelude.{◌≡◌, ◌⊎◌};
ghost use Rattle.mooringakee_c_passes.specs.SetCalls.{AnswersCall, AnswersQuestion, AnswersInsert, AnswersRemove, view_over};

use crate::answer::Answer;
use orc_chain_rule::Chain;
use orc_heap::Links;
use orc_history::{ListRefused, SharedSet};
use orc_set::Set;
use orc_split_rule::Split;
use orc_split_set::SplitSet;

/// A call of a set with a key.
#[derive(Clone, Copy)]
pub enum KeyCall {
    /// It adds the key, and tells whether it was absent.
    Insert,
    /// It takes the key out, and tells whether it was present.
    Remove,
    /// It tells whether the key is present.
    Contains,
}

// Adds a key, and tells whether it was absent.
fn insert_key<S: SharedSet>(
    set: &S,
    p: &mut S::Pass,
    turns: u64,
    key: u64,
    absent: &mut bool,
) -> Answer
    requires { S.usable set.now p.old }
    ensures usable { S.usable set.now p.new }
    ensures answer { AnswersInsert key absent.new (view_over S.SharedSet set.now turns p.old) result
        (view_over S.SharedSet set.now turns p.new) }
    ensures kept { (result ≡ Answer.Done) ⊎ (absent.new ≡ absent.old) }
{
    match set.insert(p, key, turns) {
        Ok(yes) => {
            *absent = yes;
            Answer::Done
        }
        Err(ListRefused::Again) => Answer::Again,
        Err(ListRefused::NoNode) => Answer::Full,
        Err(ListRefused::Spent(_)) => Answer::Spent,
    }
}

// Takes a key out, and tells whether it was present.
fn remove_key<S: SharedSet>(
    set: &S,
    p: &mut S::Pass,
    turns: u64,
    key: u64,
    present: &mut bool,
) -> Answer
    requires { S.usable set.now p.old }
    ensures usable { S.usable set.now p.new }
    ensures answer { AnswersRemove key present.new (view_over S.SharedSet set.now turns p.old) result
        (view_over S.SharedSet set.now turns p.new) }
    ensures kept { (result ≡ Answer.Done) ⊎ (present.new ≡ present.old) }
{
    let Ok(yes) = set.remove(p, key, turns) else {
        return Answer::Again;
    };
    *present = yes;
    Answer::Done
}

// Tells whether a key is present.
fn find_key<S: SharedSet>(
    set: &S,
    p: &mut S::Pass,
    turns: u64,
    key: u64,
    present: &mut bool,
) -> Answer
    requires { S.usable set.now p.old }
    ensures usable { S.usable set.now p.new }
    ensures answer { AnswersQuestion key present.new (view_over S.SharedSet set.now turns p.old) result
        (view_over S.SharedSet set.now turns p.new) }
    ensures kept { (result ≡ Answer.Done) ⊎ (present.new ≡ present.old) }
{
    let Ok(yes) = set.contains(p, key, turns) else {
        return Answer::Again;
    };
    *present = yes;
    Answer::Done
}

// Makes a call with a key.
fn make_call<S: SharedSet>(
    set: &S,
    p: &mut S::Pass,
    turns: u64,
    call: KeyCall,
    key: u64,
    yes: &mut bool,
) -> Answer
    requires { S.usable set.now p.old }
    ensures usable { S.usable set.now p.new }
    ensures answer { AnswersCall call key yes.new (view_over S.SharedSet set.now turns p.old) result
        (view_over S.SharedSet set.now turns p.new) }
    ensures kept { (result ≡ Answer.Done) ⊎ (yes.new ≡ yes.old) }
{
    match call {
        KeyCall::Insert => insert_key(set, p, turns, key, yes),
        KeyCall::Remove => remove_key(set, p, turns, key, yes),
        KeyCall::Contains => find_key(set, p, turns, key, yes),
    }
}

// Makes a call with a key at a bucketed set over any domain.
pub(crate) fn call_bucketed<L: Links<Rule = Chain>>(
    set: &Set<L>,
    p: &mut L::Pass,
    turns: u64,
    call: KeyCall,
    key: u64,
    yes: &mut bool,
) -> Answer
    requires { ⟦<Set<L> as SharedSet>⟧.usable set.now p.old }
    ensures usable { ⟦<Set<L> as SharedSet>⟧.usable set.now p.new }
    ensures answer { AnswersCall call key yes.new (view_over ⟦<Set<L> as SharedSet>⟧ set.now turns p.old) result
        (view_over ⟦<Set<L> as SharedSet>⟧ set.now turns p.new) }
    ensures kept { (result ≡ Answer.Done) ⊎ (yes.new ≡ yes.old) }
{
    make_call(set, p, turns, call, key, yes)
}

// Makes a call with a key at a split-ordered set over any domain.
pub(crate) fn call_split<L: Links<Rule = Split>>(
    set: &SplitSet<L>,
    p: &mut L::Pass,
    turns: u64,
    call: KeyCall,
    key: u64,
    yes: &mut bool,
) -> Answer
    requires { ⟦<SplitSet<L> as SharedSet>⟧.usable set.now p.old }
    ensures usable { ⟦<SplitSet<L> as SharedSet>⟧.usable set.now p.new }
    ensures answer { AnswersCall call key yes.new (view_over ⟦<SplitSet<L> as SharedSet>⟧ set.now turns p.old) result
        (view_over ⟦<SplitSet<L> as SharedSet>⟧ set.now turns p.new) }
    ensures kept { (result ≡ Answer.Done) ⊎ (yes.new ≡ yes.old) }
{
    make_call(set, p, turns, call, key, yes)
}
