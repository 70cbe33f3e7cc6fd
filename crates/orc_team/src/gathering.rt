//! Lists of replies that take in those of others.
ghost use Rattle.std.specs.Prelude.{◌≡◌, ◌+◌, ◌≤◌, ◌++◌, ℕ, List, length};

use orc_board::ReplyList;

/// One list of replies or several, each with room for more.
pub trait Gather: Drop {
    // the lists
    ghost Kind: { Type 0 };

    // a reply in each
    ghost Reply: { Kind → Type 0 };

    // the replies of a list
    ghost items: { (kind : Kind) → Self → List (Reply kind) };

    // for how many more it has room
    ghost spare: { Kind → Self → ℕ };

    /// Appends to each list that of another worker. It takes no memory.
    fn gather(&mut self, more: Self)
        requires { (kind : Kind) → length (items kind more) ≤ spare kind self.old }
        ensures items { (kind : Kind) → items kind self.new ≡ items kind self.old ++ items kind more }
        ensures spare { (kind : Kind) → spare kind self.new + length (items kind more) ≡ spare kind self.old };
}

impl<X: Drop> Gather for ReplyList<X> {
    ghost Kind = { Unit {0} };

    ghost Reply = { λ kind. X };

    ghost items = { λ kind list. list.items };

    ghost spare = { λ kind list. list.spare };

    fn gather(&mut self, more: Self) {
        self.append(more)
    }
}
