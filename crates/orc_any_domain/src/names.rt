//! How a domain names what a caller names: by rows.

ghost use Rattle.std.specs.Prelude.{◌≡◌};
ghost use Rattle.orc_any_domain.specs.Names.{row_link, target_link, word_at};

use orc_heap::{At, Held, Want};
use orc_words::{RowLink, Word};

/// The link word of a place that a caller names.
pub fn word_at(place: &At) -> Word
    ensures { result ≡ word_at place.now }
{
    match *place {
        At::Root(root) => Word::Root(root),
        At::Node(h) => Word::Next(h.row()),
        At::Side(h) => Word::Side(h.row()),
    }
}

/// The link that a caller names, by the row of its target.
pub fn row_link(link: &Want) -> RowLink
    ensures { result ≡ row_link link.now }
{
    match *link {
        Want::Null(mark) => RowLink { to: None, mark },
        Want::Node(h, mark) => RowLink {
            to: Some(h.row()),
            mark,
        },
    }
}

/// An unmarked link to a target.
pub fn target_link(to: Option<&Held>) -> RowLink
    ensures { result ≡ target_link to.entry }
{
    match to {
        None => RowLink {
            to: None,
            mark: false,
        },
        Some(h) => RowLink {
            to: Some(h.row()),
            mark: false,
        },
    }
}
