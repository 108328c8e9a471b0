// The limits of the tables that a plan needs.
use document::limits::{MAX_LINKS, MAX_NODES};

// The steps of the longest walk: one for each link, one for the end of each node, if every one is a collection, and one for the root.
pub const MAX_STEPS: usize = MAX_NODES + MAX_LINKS + 1;
