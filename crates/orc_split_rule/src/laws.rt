//! Laws of the split-order discipline.

ghost use Rattle.std.specs.Prelude.{◌≡◌, ◌↔◌, ℕ, ◌*◌, ◌++◌, ◌<◌, ◌≤◌, List, [], ◌∷◌, Option, Some, None, suc, true, false, slice_get};
ghost use Rattle.orc_heap.specs.{
  Allowed.{AllAllowed, AllowedLater, HasLink, Later, events_by},
  Heap.{HeapNumbers, Node, link_to, null, shown},
  Journals.{event_by, run_heap},
  declared.events.{Act.{Act}, Event.{Event}, Link.{Link}, Place.{Place}},
};
ghost use Rattle.orc_history.specs.{Journals.{own_of}, SetHistory.{IsLegalSet, agent_of_set_entry, has}, declared.set.SetEntry.{SetEntry}};
ghost use Rattle.orc_ordered_chains.specs.Chains.{FollowsOn, IsAbove, IsChainPlace, IsOnChain, IsPath, IsRun, LeadsTo, link_over};
ghost use Rattle.orc_split_rule.specs.{
  declared.split.SplitNote.{SplitNote},
  SplitOrder.{IsAncestor, bucket_of, dummy_place, key_place, split_order},
  SplitDiscipline.{HasKey, HasValues, IsDummy, IsPresent, IsSize, SplitHolds, SplitMay, entries_of, greatest, set_after, size_of},
  Watches.{LeavesOut, StandsFor, node_to_link},
};

/// The empty list obeys the discipline, and so does each list that goes on with events that are allowed where
/// they stand.
pub fn allowed_events_obey_the_discipline()
    ensures nothing { (n : HeapNumbers) → SplitHolds n [] }
    ensures more { (n : HeapNumbers) (seen more : List (Event SplitNote)) → SplitHolds n seen → AllAllowed (SplitMay n) seen more
        → SplitHolds n (seen ++ more) }
{}

/// The history of a set is that of a plain finite set, and an agent's entries are those of its own events.
pub fn set_histories_are_legal()
    ensures legal { (n : HeapNumbers) (es : List (Event SplitNote)) → SplitHolds n es → IsLegalSet (entries_of es) }
    ensures from_nothing { (n : HeapNumbers) (es : List (Event SplitNote)) → AllAllowed (SplitMay n) [] es
        → IsLegalSet (entries_of es) }
    ensures own { (n : HeapNumbers) (agent : ℕ) (seen more : List (Event SplitNote)) → AllAllowed (SplitMay n) seen more
        → own_of agent_of_set_entry agent (entries_of more) ≡ entries_of (events_by agent more) }
{}

/// The set has the keys of the key nodes on the chain whose own link is unmarked.
pub fn the_set_stands_on_the_chain()
    ensures { (n : HeapNumbers) (es : List (Event SplitNote)) (key : ℕ) → SplitHolds n es
        → (has key (set_after es) ≡ true) ↔ IsPresent (run_heap n es) key }
{}

/// The link of a dummy is never marked, and a dummy that was linked is on the chain. What a bucket's root names is the
/// bucket's dummy.
pub fn dummies_are_never_marked()
    ensures unmarked { (n : HeapNumbers) (es : List (Event SplitNote)) (id bucket : ℕ) (link : Link) → SplitHolds n es
        → IsDummy (run_heap n es) id bucket → shown (run_heap n es) (Place.Next id) ≡ Some link → link.mark ≡ false }
    ensures on_chain { (n : HeapNumbers) (es : List (Event SplitNote)) (id bucket : ℕ) → SplitHolds n es
        → IsDummy (run_heap n es) id bucket → IsOnChain (run_heap n es) 0 id }
    ensures anchored { (n : HeapNumbers) (es : List (Event SplitNote)) (id bucket : ℕ) → SplitHolds n es
        → 1 ≤ bucket → bucket < greatest n → LeadsTo (run_heap n es) (Place.Root bucket) (Some id)
        → IsDummy (run_heap n es) id bucket }
{}

/// A search for a split place may begin at root 0. One for a key may begin at the dummy of the key's bucket, for any number
/// of buckets, and at that of any ancestor of the bucket; one for a dummy, at the dummy of any ancestor of its bucket. What
/// the links lead to from a dummy is on the chain, and so is the key's node behind it, if the key is in the set.
pub fn searches_may_begin_at_dummies()
    ensures at_root { (n : HeapNumbers) (es : List (Event SplitNote)) (rank : ℕ)
        → FollowsOn split_order (run_heap n es) (Place.Root 0) rank }
    ensures for_a_key { (n : HeapNumbers) (es : List (Event SplitNote)) (id key size back old : ℕ)
        → IsSize (greatest n) size → IsAncestor back old (bucket_of key size) → IsDummy (run_heap n es) id old
        → FollowsOn split_order (run_heap n es) (Place.Next id) (key_place key) }
    ensures for_a_dummy { (n : HeapNumbers) (es : List (Event SplitNote)) (id bucket back old : ℕ)
        → IsAncestor (suc back) old bucket → IsDummy (run_heap n es) id old
        → FollowsOn split_order (run_heap n es) (Place.Next id) (dummy_place bucket) }
    ensures leads_to_the_key { (n : HeapNumbers) (es : List (Event SplitNote)) (id key size back old : ℕ) → SplitHolds n es
        → IsSize (greatest n) size → IsAncestor back old (bucket_of key size) → IsDummy (run_heap n es) id old
        → (present : IsPresent (run_heap n es) key)
        → (over : List ℕ) × IsPath (run_heap n es) (Place.Next id) over (Some present.id) }
    ensures on_chain { (n : HeapNumbers) (es : List (Event SplitNote)) (id bucket next : ℕ) (over : List ℕ) → SplitHolds n es
        → IsDummy (run_heap n es) id bucket → IsPath (run_heap n es) (Place.Next id) over (Some next)
        → IsOnChain (run_heap n es) 0 next }
{}

/// The number of buckets is a power of two, of at most as many as there are roots for. A Grow doubles it, and no other event
/// changes it, so it never falls.
pub fn sizes_double()
    ensures power { (n : HeapNumbers) (es : List (Event SplitNote)) → 1 ≤ greatest n → SplitHolds n es
        → IsSize (greatest n) (size_of n es) }
    ensures grow { (n : HeapNumbers) (seen : List (Event SplitNote)) (e : Event SplitNote) → 1 ≤ greatest n → SplitHolds n seen
        → SplitMay n seen e → e.note ≡ Some SplitNote.Grow → size_of n (seen ++ e ∷ []) ≡ 2 * size_of n seen }
    ensures same { (n : HeapNumbers) (seen : List (Event SplitNote)) (e : Event SplitNote) → 1 ≤ greatest n → SplitHolds n seen
        → SplitMay n seen e → ¬ (e.note ≡ Some SplitNote.Grow) → size_of n (seen ++ e ∷ []) ≡ size_of n seen }
    ensures never_falls { (n : HeapNumbers) (seen more : List (Event SplitNote)) → 1 ≤ greatest n → SplitHolds n seen
        → AllAllowed (SplitMay n) seen more → size_of n seen ≤ size_of n (seen ++ more) }
{}

/// A key is absent where a place below it shows an unmarked link that leads over a run of marked nodes, possibly none,
/// to null or above the key. It is present where a node with the key has an unmarked link.
pub fn keys_absent_and_present()
    ensures absent { (n : HeapNumbers) (es : List (Event SplitNote)) (place : Place) (from : Link) (over : List ℕ) (to : Option ℕ) (key : ℕ)
        → SplitHolds n es → shown (run_heap n es) place ≡ Some from
        → LeavesOut (run_heap n es) place from over to (key_place key) → has key (set_after es) ≡ false }
    ensures present { (n : HeapNumbers) (es : List (Event SplitNote)) (id key : ℕ) (link : Link) → SplitHolds n es
        → HasKey (run_heap n es) id key → shown (run_heap n es) (Place.Next id) ≡ Some link → link.mark ≡ false
        → has key (set_after es) ≡ true }
{}

/// What stays true whatever is allowed: the values of a once linked node, that a place is one of the chain, a marked link and
/// so a run of marked nodes, what lies below and above a split place, and that a place's link leaves it out. A fresh node
/// stays as it is while other agents act.
pub fn facts_of_the_chain_stay()
    ensures values { (n : HeapNumbers) (seen more : List (Event SplitNote)) (id first second : ℕ) → AllAllowed (SplitMay n) seen more
        → HasValues (run_heap n seen) id first second → HasValues (run_heap n (seen ++ more)) id first second }
    ensures place { (n : HeapNumbers) (seen more : List (Event SplitNote)) (place : Place) → AllAllowed (SplitMay n) seen more
        → IsChainPlace split_order (run_heap n seen) place → IsChainPlace split_order (run_heap n (seen ++ more)) place }
    ensures marked { (n : HeapNumbers) (seen more : List (Event SplitNote)) (id : ℕ) (link : Link) → AllAllowed (SplitMay n) seen more
        → HasLink (run_heap n seen) id link → link.mark ≡ true → HasLink (run_heap n (seen ++ more)) id link }
    ensures run { (n : HeapNumbers) (seen more : List (Event SplitNote)) (from : Link) (over : List ℕ) (to : Option ℕ)
        → AllAllowed (SplitMay n) seen more → IsRun (run_heap n seen) from over to → IsRun (run_heap n (seen ++ more)) from over to }
    ensures below { (n : HeapNumbers) (seen more : List (Event SplitNote)) (place : Place) (rank : ℕ)
        → AllAllowed (SplitMay n) seen more → FollowsOn split_order (run_heap n seen) place rank
        → FollowsOn split_order (run_heap n (seen ++ more)) place rank }
    ensures above { (n : HeapNumbers) (seen more : List (Event SplitNote)) (to : Option ℕ) (rank : ℕ) → AllAllowed (SplitMay n) seen more
        → IsAbove split_order (run_heap n seen) to rank → IsAbove split_order (run_heap n (seen ++ more)) to rank }
    ensures left_out { (n : HeapNumbers) (seen more : List (Event SplitNote)) (place : Place) (from : Link) (over : List ℕ)
        (to : Option ℕ) (rank : ℕ) → AllAllowed (SplitMay n) seen more → LeavesOut (run_heap n seen) place from over to rank
        → LeavesOut (run_heap n (seen ++ more)) place from over to rank }
    ensures fresh { (n : HeapNumbers) (seen more : List (Event SplitNote)) (agent id : ℕ) (node : Node) → SplitHolds n seen
        → Later (SplitMay n) agent seen more → slice_get (run_heap n seen).nodes id ≡ Some node
        → node.giver ≡ agent → node.named ≡ false → node.linked ≡ false
        → slice_get (run_heap n (seen ++ more)).nodes id ≡ Some node }
{}

/// An agent that saw a link leave out a key may link its fresh node with the key, aimed where the link leads, wherever
/// the place shows the link.
pub fn an_added_may_come()
    ensures { (n : HeapNumbers) (agent : ℕ) (place : Place) (from : Link) (over : List ℕ) (to : Option ℕ) (key fresh : ℕ)
        (seen : List (Event SplitNote)) → SplitHolds n seen → LeavesOut (run_heap n seen) place from over to (key_place key)
        → slice_get (run_heap n seen).nodes fresh ≡ Some (node_to_link agent key 1 to)
        → AllowedLater (SplitMay n) n agent seen place from
        (event_by agent (Act.Move place from (link_to fresh)) (Some (SplitNote.Entry (SetEntry.Added agent key true)))) }
{}

/// An agent that saw a link leave out the dummy of a bucket may link its fresh dummy of that bucket in the same way.
pub fn a_bucket_may_come()
    ensures { (n : HeapNumbers) (agent : ℕ) (place : Place) (from : Link) (over : List ℕ) (to : Option ℕ) (bucket fresh : ℕ)
        (seen : List (Event SplitNote)) → SplitHolds n seen → 1 ≤ bucket → bucket < greatest n
        → LeavesOut (run_heap n seen) place from over to (dummy_place bucket)
        → slice_get (run_heap n seen).nodes fresh ≡ Some (node_to_link agent bucket 0 to)
        → AllowedLater (SplitMay n) n agent seen place from
        (event_by agent (Act.Move place from (link_to fresh)) (Some SplitNote.Bucket)) }
{}

/// An agent that saw a once linked node with a key may mark it wherever its link is this unmarked one.
pub fn a_removed_may_come()
    ensures { (n : HeapNumbers) (agent id key : ℕ) (from : Link) (seen : List (Event SplitNote)) → SplitHolds n seen
        → HasKey (run_heap n seen) id key → from.mark ≡ false
        → AllowedLater (SplitMay n) n agent seen (Place.Next id) from
        (event_by agent (Act.Move (Place.Next id) from (record { to = from.to; mark = true }))
        (Some (SplitNote.Entry (SetEntry.Removed agent key true)))) }
{}

/// An agent that saw an unmarked link lead to a run of marked nodes may lead it past them wherever a place of the chain
/// shows it.
pub fn an_unlink_may_come()
    ensures { (n : HeapNumbers) (agent : ℕ) (place : Place) (from : Link) (first : ℕ) (others : List ℕ) (to : Option ℕ)
        (seen : List (Event SplitNote)) → SplitHolds n seen → IsChainPlace split_order (run_heap n seen) place → from.mark ≡ false
        → IsRun (run_heap n seen) from (first ∷ others) to
        → AllowedLater (SplitMay n) n agent seen place from
        (event_by agent (Act.Move place from (link_over to)) (Some SplitNote.Unlink)) }
{}

/// An agent that saw the dummy of a bucket linked may lead the bucket's root to it wherever that root is null.
pub fn an_anchor_may_come()
    ensures { (n : HeapNumbers) (agent id bucket : ℕ) (seen : List (Event SplitNote)) → SplitHolds n seen
        → 1 ≤ bucket → bucket < greatest n → IsDummy (run_heap n seen) id bucket
        → AllowedLater (SplitMay n) n agent seen (Place.Root bucket) null
        (event_by agent (Act.Move (Place.Root bucket) null (link_to id)) (Some SplitNote.Anchor)) }
{}

/// An agent that saw an unmarked link of the last root stand for a size may lead it to its fresh node of twice that size, if
/// there are roots for so many buckets, wherever the last root shows that link.
pub fn a_grow_may_come()
    ensures { (n : HeapNumbers) (agent size fresh : ℕ) (from : Link) (seen : List (Event SplitNote)) → SplitHolds n seen
        → 1 ≤ greatest n → from.mark ≡ false → StandsFor (run_heap n seen) from.to size → 2 * size ≤ greatest n
        → slice_get (run_heap n seen).nodes fresh ≡ Some (node_to_link agent (2 * size) 2 None)
        → AllowedLater (SplitMay n) n agent seen (Place.Root (greatest n)) from
        (event_by agent (Act.Move (Place.Root (greatest n)) from (link_to fresh)) (Some SplitNote.Grow)) }
{}

/// An agent that saw a link leave out a key may say that the key is absent wherever the place shows the link again.
pub fn absent_answers_may_come()
    ensures removed { (n : HeapNumbers) (agent : ℕ) (place : Place) (from : Link) (over : List ℕ) (to : Option ℕ) (key : ℕ)
        (seen : List (Event SplitNote)) → SplitHolds n seen → LeavesOut (run_heap n seen) place from over to (key_place key)
        → AllowedLater (SplitMay n) n agent seen place from
        (event_by agent (Act.Look place from) (Some (SplitNote.Entry (SetEntry.Removed agent key false)))) }
    ensures asked { (n : HeapNumbers) (agent : ℕ) (place : Place) (from : Link) (over : List ℕ) (to : Option ℕ) (key : ℕ)
        (seen : List (Event SplitNote)) → SplitHolds n seen → LeavesOut (run_heap n seen) place from over to (key_place key)
        → AllowedLater (SplitMay n) n agent seen place from
        (event_by agent (Act.Look place from) (Some (SplitNote.Entry (SetEntry.Asked agent key false)))) }
{}

/// An agent that saw a once linked node with a key may say that the key is present wherever the node's link is this
/// unmarked one.
pub fn present_answers_may_come()
    ensures added { (n : HeapNumbers) (agent id key : ℕ) (link : Link) (seen : List (Event SplitNote)) → SplitHolds n seen
        → HasKey (run_heap n seen) id key → link.mark ≡ false
        → AllowedLater (SplitMay n) n agent seen (Place.Next id) link
        (event_by agent (Act.Look (Place.Next id) link) (Some (SplitNote.Entry (SetEntry.Added agent key false)))) }
    ensures asked { (n : HeapNumbers) (agent id key : ℕ) (link : Link) (seen : List (Event SplitNote)) → SplitHolds n seen
        → HasKey (run_heap n seen) id key → link.mark ≡ false
        → AllowedLater (SplitMay n) n agent seen (Place.Next id) link
        (event_by agent (Act.Look (Place.Next id) link) (Some (SplitNote.Entry (SetEntry.Asked agent key true)))) }
{}
