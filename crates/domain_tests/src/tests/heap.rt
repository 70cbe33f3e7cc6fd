//! The laws of the heap that is never reused, and worked examples of its definitions.

use orc_heap::{
    Held, a_changed_link_was_moved, a_node_tells_its_journal, journals_go_on,
    once_linked_nodes_stay,
};
use std::test::Fail;

mod calls;
mod examples;
mod seeds;

#[test]
fn the_laws_stand() {
    once_linked_nodes_stay();
    a_node_tells_its_journal::<u32>();
    journals_go_on::<u32>();
    a_changed_link_was_moved::<u32>();
}

#[test]
fn a_hold_tells_its_row_and_slot(rt: HostRuntime) -> Result<(), Fail> {
    let h = Held::new(70_000, 7);
    let told = (h.row(), h.slot());
    h.end();
    assert_eq!(rt; told, (70_000, 7));
    Ok(())
}
