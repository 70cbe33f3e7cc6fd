//! Sets cross threads where their domains do. Their calls are run over each domain in `uses`.

use orc_chain_rule::Chain;
use orc_heap::Links;
use orc_set::Set;

fn is_shared<T: Sync>() {}

fn is_sent<T: Send>() {}

// Compiles for each domain that may cross threads.
fn sets_cross_threads<L: Links<Rule = Chain> + Send + Sync>() {
    is_shared::<Set<L>>();
    is_sent::<Set<L>>();
}
