//! Nodes that cover another one, or can be joined with it.

ghost use Rattle.std.specs.Prelude.{◌≡◌, ℕ, ◌<◌, IsTrue, IfOk, Any, length};
ghost use Rattle.search.specs.Admitted.{IsJoined};

use crate::index::Index;
use crate::steps::Steps;
use std::alloc::{AllocError, Global};

/// What became of a node that was to be joined with one of others.
#[derive(Drop)]
pub enum Joined<N> {
    /// The node of this number covers it now.
    At(usize),
    /// It can't be joined with any.
    Apart(N),
}

/// Whether one of the nodes of a chain covers another.
pub fn is_covered<S: Steps>(
    nodes: &[S::Node],
    index: &Index,
    steps: &S,
    first: Option<usize>,
    node: &S::Node,
) -> bool
    ensures { IsTrue result →
        Any (λ x. (S.rules (S.setting steps.now)).covers x node.now) nodes.now }
{
    let mut at = first;
    for _number in 0..index.len() {
        let Some(number) = at else {
            return false;
        };
        if number < nodes.len() && steps.covers(&nodes[number], node) {
            return true;
        }
        at = index.after(number);
    }
    false
}

/// Joins a node with one of those of a chain.
pub fn join_among<S: Steps>(
    alloc: Global,
    nodes: &mut [S::Node],
    index: &Index,
    steps: &S,
    first: Option<usize>,
    node: S::Node,
) -> Result<Joined<S::Node>, AllocError>
    ensures { IfOk result
        (IsJoined (S.rules (S.setting steps.now)) nodes.old nodes.new node) }
{
    let mut left = node;
    let mut at = first;
    for _number in 0..index.len() {
        let Some(number) = at else {
            return Ok(Joined::Apart(left));
        };
        if number < nodes.len() {
            match join_at(alloc, nodes, steps, number, left)? {
                Joined::At(joined) => return Ok(Joined::At(joined)),
                Joined::Apart(same) => left = same,
            }
        }
        at = index.after(number);
    }
    Ok(Joined::Apart(left))
}

/// Joins a node with that of a number.
fn join_at<S: Steps>(
    alloc: Global,
    nodes: &mut [S::Node],
    steps: &S,
    number: usize,
    node: S::Node,
) -> Result<Joined<S::Node>, AllocError>
    requires { number < length nodes.old }
    ensures { IfOk result
        (IsJoined (S.rules (S.setting steps.now)) nodes.old nodes.new node) }
{
    match steps.join(alloc, &mut nodes[number], node)? {
        None => Ok(Joined::At(number)),
        Some(same) => Ok(Joined::Apart(same)),
    }
}
