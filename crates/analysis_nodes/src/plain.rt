//! The plain instructions at a node.

ghost use Rattle.std.specs.Prelude.{◌≡◌, ◌<◌, IfOk, map};
ghost use Rattle.osek_base.specs.declared.limits.TheConstants.{MAX_INSTRUCTIONS};
ghost use Rattle.law_nodes.specs.Steps.{jumped, plain_steps};
ghost use Rattle.analysis_nodes.specs.Nodes.{node_by};

use crate::node::Node;
use crate::stepping::{alone, both, next_node, node_at, node_with_value};
use crate::values::{computed, decided, known};
use osek_base::{Comparison, MAX_INSTRUCTIONS, Place, Plain, Register};
use std::alloc::{AllocError, Global};

/// A jump: taken, not taken, or either.
fn jumped(
    alloc: Global,
    node: &Node,
    taken: Option<bool>,
    to: Place,
) -> Result<Vec<Node>, AllocError>
    requires { node.now.place < MAX_INSTRUCTIONS }
    ensures { IfOk result (λ nodes. map node_by nodes.items ≡ jumped taken to (node_by node.now)) }
{
    match taken {
        Some(taken) => {
            if taken {
                alone(alloc, node_at(alloc, node, u32::from(to.number()))?)
            } else {
                alone(alloc, next_node(alloc, node)?)
            }
        }
        None => {
            let there = node_at(alloc, node, u32::from(to.number()))?;
            let next = next_node(alloc, node)?;
            both(alloc, there, next)
        }
    }
}

/// What may become of who executes a plain instruction at a node.
pub(crate) fn plain_steps(
    alloc: Global,
    node: &Node,
    plain: &Plain,
) -> Result<Vec<Node>, AllocError>
    requires { node.now.place < MAX_INSTRUCTIONS }
    ensures { IfOk result (λ nodes. map node_by nodes.items
        ≡ plain_steps plain.now (node_by node.now)) }
{
    match *plain {
        Plain::Nop => alone(alloc, next_node(alloc, node)?),
        Plain::Li(to, number) => alone(alloc, node_with_value(alloc, node, to, Some(number))?),
        Plain::Mov(to, from) => {
            let value = known(&node.registers, from);
            alone(alloc, node_with_value(alloc, node, to, value)?)
        }
        Plain::Compute(operation, to, a, b) => {
            let a = known(&node.registers, a);
            let b = known(&node.registers, b);
            let value = computed(operation, a, b);
            alone(alloc, node_with_value(alloc, node, to, value)?)
        }
        Plain::Ld(to, _) => alone(alloc, node_with_value(alloc, node, to, None)?),
        Plain::St(_, _) => alone(alloc, next_node(alloc, node)?),
        Plain::Jmp(to) => alone(alloc, node_at(alloc, node, u32::from(to.number()))?),
        Plain::JumpIf(test, a, b, to) => {
            let taken = decided(test, known(&node.registers, a), known(&node.registers, b));
            jumped(alloc, node, taken, to)
        }
    }
}
