//! Weights and edges of any net, and its removals.
use field_core::Wide;
use removal::Remover;
use std::process::Abort;

/// Returns the weight of `k`, or `None` if it was removed.
pub fn weight_of<R: Remover>(net: &R, k: usize) -> Option<R::Value> {
    if k < net.size() && net.is_live(k) {
        return Some(net.weight(k));
    }
    None
}

/// Returns the edge from `l` to `k`, or `None` if one of them was removed.
pub fn edge_of<R: Remover>(net: &R, l: usize, k: usize) -> Option<R::Value> {
    if l < net.size() && k < net.size() && net.is_live(l) && net.is_live(k) {
        return Some(net.edge(l, k));
    }
    None
}

/// Removes the remaining hypothesis `j`.
pub fn remove<R: Remover>(rt: &impl Abort, net: &mut R, j: usize) -> Result<(), Wide> {
    assert!(rt; j < net.size());
    assert!(rt; net.is_live(j));
    net.remove(j)
}
