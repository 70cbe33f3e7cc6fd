//! Lists cross threads where their domains do. Their calls are run over each domain in `uses`.

use orc_chain_rule::Chain;
use orc_heap::Links;
use orc_list::List;

mod examples;

fn is_shared<T: Sync>() {}

fn is_sent<T: Send>() {}

// Compiles for each domain that may cross threads.
fn lists_cross_threads<L: Links<Rule = Chain> + Send + Sync>() {
    is_shared::<List<L>>();
    is_sent::<List<L>>();
}
