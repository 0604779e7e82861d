//! The bounds of the numbers that an act may name.

/// How many nodes, ports of each node and scripts an input has. The numbers of nodes, ports and scripts that its acts
/// name are below these: the contracts say so.
#[derive(Clone, Copy)]
pub struct Ranges {
    pub nodes: u8,
    pub ports: u8,
    pub scripts: u8,
}
