//! Lists of replies, whose room is reserved when they are made.
ghost use Rattle.std.specs.Prelude.{◌≡◌, ◌≢◌, ◌+◌, ◌<◌, ◌≤◌, ◌++◌, ◌∷◌, [], IfOk, IsTrue, ◌↔◌, length};

use crate::{PostReply, TakeReply};
use orc_fault::NoMemory;
use std::alloc::Global;
use std::marker::Model;

/// Replies, and room for more.
#[derive(Drop)]
pub struct ReplyList<T> {
    items: Vec<T>,
    spare: usize,
}

/// The replies of posters.
pub type PostList = ReplyList<PostReply>;

/// The replies of takers.
pub type TakeList = ReplyList<TakeReply>;

impl<T> Model for ReplyList<T> {
    ghost use Rattle.std.specs.Prelude.{◌+◌, ◌≤◌, vec_len};
    ghost use Rattle.std.specs.Vec.{vec_capacity};
    ghost use Rattle.orc_board.specs.ListWithRoom.{ListWithRoom};

    ghost Value = { ListWithRoom T };

    ghost view = { λ l. record { items = l.items.items; spare = l.spare } };

    ghost invariant = { λ l. vec_len l.items + l.spare ≤ vec_capacity l.items };
}

impl<T: Drop> ReplyList<T> {
    /// An empty list with room for so many replies.
    ///
    /// # Errors
    ///
    /// `NoMemory` where memory is refused.
    pub fn new(alloc: Global, room: usize) -> Result<Self, NoMemory>
        ensures { IfOk result (λ l. (l.items ≡ []) × (l.spare ≡ room)) }
    {
        let items = Vec::with_capacity(alloc, room)?;
        Ok(ReplyList { items, spare: room })
    }

    /// Appends a reply, and takes no memory.
    pub fn push(&mut self, item: T)
        requires { self.old.spare ≢ 0 }
        ensures items { self.new.items ≡ self.old.items ++ item ∷ [] }
        ensures spare { self.new.spare + 1 ≡ self.old.spare }
    {
        let _ = self.items.push(item);
        self.spare -= 1;
    }

    /// Appends all replies of another list, and takes no memory.
    pub fn append(&mut self, other: Self)
        requires { length other.items ≤ self.old.spare }
        ensures items { self.new.items ≡ self.old.items ++ other.items }
        ensures spare { self.new.spare + length other.items ≡ self.old.spare }
    {
        let ReplyList {
            items: mut more,
            spare: _,
        } = other;
        self.spare -= more.len();
        let Ok(()) = self.items.append(&mut more) else {
            unreachable!()
        };
    }

    /// For how many more replies there is room.
    pub fn spare(&self) -> usize
        ensures { result ≡ self.now.spare }
    {
        self.spare
    }

    /// How many replies there are.
    pub fn len(&self) -> usize
        ensures { result ≡ length self.now.items }
    {
        self.items.len()
    }

    /// Whether there are none.
    pub fn is_empty(&self) -> bool
        ensures { IsTrue result ↔ (self.now.items ≡ []) }
    {
        self.items.is_empty()
    }

    /// The replies in order.
    pub fn items(&self) -> &[T]
        ensures { result.now ≡ self.now.items }
    {
        self.items.as_slice()
    }
}
