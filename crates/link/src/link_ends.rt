// An end of the link: a base or a logger.
use ends::State;
use suite::Suite;

// One value of each suite, and what the end holds. An end is had blank, and then made.
#[derive(Drop)]
pub struct LinkEnd<P: Suite, G: Suite> {
    pub(crate) pairwise_suite: P,
    pub(crate) group_suite: G,
    pub(crate) state: State,
}
