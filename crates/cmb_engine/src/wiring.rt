//! What an engine keeps of its slots and never changes.

use crate::cells::Cells;
use crate::fanout::Fanout;
use crate::group::Group;
use crate::role::Role;

/// What stays as it is while an engine goes on: what it does with each net, its cells, their fanout, the groups
/// of flip-flops, and how many ticks back a pin looks at most.
#[derive(Drop)]
pub(crate) struct Wiring {
    pub roles: Vec<Role>,
    pub cells: Cells,
    pub fanout: Fanout,
    pub flops: Vec<Group>,
    pub most: u32,
}
