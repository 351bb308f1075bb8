//! Lists of exchanges that lose nothing and turn no order.

pub(crate) use fixtures::between;
use round_plan::RoundList;
use std::alloc::AllocGlobal;
use std::process::Abort;

/// Two pairs of nodes, and then one node of each pair with one of the other.
pub(crate) const CROSSING: &[(u32, u32)] = &[(0, 1), (2, 3), (1, 2), (0, 3)];

/// Two pairs of nodes that meet twice.
pub(crate) const TWICE: &[(u32, u32)] = &[(0, 2), (1, 3), (2, 0), (3, 1)];

/// Two nodes that meet twice.
pub(crate) const PAIR: &[(u32, u32)] = &[(0, 1), (1, 0)];

/// The list of exchanges between these initiators and responders, where a round may have it.
pub(crate) fn try_list_of(
    rt: &(impl Abort + AllocGlobal),
    nodes: u32,
    unreached: u32,
    pairs: &[(u32, u32)],
) -> Option<RoundList> {
    let mut exchanges = Vec::new(rt.alloc());
    for (initiator, responder) in pairs {
        let exchange = between(*initiator, *responder);
        exchanges.push(exchange).expect(rt, "memory");
    }
    RoundList::of(nodes, unreached, exchanges)
}

/// The list of a round that has these exchanges and reached every node.
pub(crate) fn list_of(
    rt: &(impl Abort + AllocGlobal),
    nodes: u32,
    pairs: &[(u32, u32)],
) -> RoundList {
    try_list_of(rt, nodes, 0, pairs).expect(rt, "a list of these nodes")
}
