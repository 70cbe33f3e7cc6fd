/// What is wrong with a record. Where several causes apply, the first in this order is told.
#[derive(Clone, Copy, Debug, PartialEq, Eq, Drop)]
pub enum WatchCause {
    /// There aren't 1 field where the first is `see`, 3 where it is `both`, or 2 where it is another.
    Fields,
    /// Some field isn't UTF-8.
    Utf8,
    /// The first field is none of `left`, `right`, `both` and `see`.
    Verb,
    /// Some later field isn't a canonical decimal below 2^32.
    Value,
}
