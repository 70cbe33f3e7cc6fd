/// What is wrong with a record. Where several causes apply, the first in this order is told.
#[derive(Clone, Copy, Debug, PartialEq, Eq, Drop)]
pub enum Cause {
    /// There aren't 2 fields where the first is `drop`, or 4 where it is another.
    Fields,
    /// Some field isn't UTF-8.
    Utf8,
    /// The first field is none of `post`, `rush` and `drop`.
    Verb,
    /// The second field isn't a canonical decimal below 2^32.
    Id,
    /// The third field is none of `bytes`, `words` and `sum`.
    Op,
    /// The text of a `sum` is neither empty nor canonical decimals below 2^32 that single spaces part.
    Sum,
}
