//! What runs over reclaiming domains have in common: the sizes of their domains, and what each leaves: the one journal of the domain,
//! which is at rest then, and how its rows were used again.
#![tactic(auto)]

mod shapes;

pub use shapes::shape_of;
