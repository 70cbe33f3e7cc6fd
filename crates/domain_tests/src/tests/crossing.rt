//! Domains, boards and passes cross threads, under each discipline whose notes may.

use orc_domain::{OrcDomain, OrcPass};
use orc_heap::Discipline;
use orc_plain_board::{PlainBoard, PlainBoardPass};
use orc_plain_domain::{PlainDomain, PlainPass};

fn is_shared<T: Sync>() {}

fn is_sent<T: Send>() {}

// Compiles for each such discipline.
fn domains_boards_and_passes_cross_threads<D: Discipline>()
where
    D::Note: Send + Sync,
{
    is_shared::<OrcDomain<D>>();
    is_sent::<OrcDomain<D>>();
    is_sent::<OrcPass<D>>();
    is_shared::<PlainDomain<D>>();
    is_sent::<PlainDomain<D>>();
    is_sent::<PlainPass<D>>();
    is_shared::<PlainBoard<D>>();
    is_sent::<PlainBoard<D>>();
    is_sent::<PlainBoardPass<D>>();
}
