//! Whether a node covers another one.

ghost use Rattle.std.specs.Prelude.{◌≡◌};
ghost use Rattle.osek_base.specs.Lists.{same_owner};
ghost use Rattle.law_nodes.specs.Nodes.{covers, is_beside, is_within, same_held, same_switch, same_wait};
ghost use Rattle.analysis_nodes.specs.Nodes.{node_by, switch_by};

use crate::calling::same_resource;
use crate::node::Node;
use crate::switch::Switch;
use crate::values::know_no_more;
use osek_base::{Owner, ResId};

/// Whether two owners are the same.
fn same_owner(a: Owner, b: Owner) -> bool
    ensures { result ≡ same_owner a b }
{
    match a {
        Owner::Task(m) => match b {
            Owner::Task(n) => m.number() == n.number(),
            Owner::Routine(_) => false,
        },
        Owner::Routine(m) => match b {
            Owner::Task(_) => false,
            Owner::Routine(n) => m.number() == n.number(),
        },
    }
}

/// Whether two switches are the same.
fn same_switch(v: &Switch, w: &Switch) -> bool
    ensures { result ≡ same_switch (switch_by v.now) (switch_by w.now) }
{
    let disabled = if v.disabled { w.disabled } else { !w.disabled };
    let all = v.suspended_all == w.suspended_all;
    let os = v.suspended_os == w.suspended_os;
    disabled && all && os
}

/// Whether two lists of resources are the same.
fn same_held(some: &[ResId], others: &[ResId]) -> bool
    ensures { result ≡ same_held some.now others.now }
{
    match some.split_first() {
        None => others.is_empty(),
        Some((first, rest)) => match others.split_first() {
            None => false,
            Some((other, more)) => {
                if same_resource(first, other) {
                    same_held(rest, more)
                } else {
                    false
                }
            }
        },
    }
}

/// Whether two wait for the same.
fn same_wait(a: Option<u32>, b: Option<u32>) -> bool
    ensures { result ≡ same_wait a b }
{
    match a {
        None => b.is_none(),
        Some(m) => match b {
            None => false,
            Some(n) => m == n,
        },
    }
}

/// Whether two nodes are the same but for registers and used events.
pub(crate) fn is_beside(m: &Node, n: &Node) -> bool
    ensures { result ≡ is_beside (node_by m.now) (node_by n.now) }
{
    let place = m.place == n.place;
    let owner = same_owner(m.owner, n.owner);
    let switch = same_switch(&m.switch, &n.switch);
    let held = same_held(&m.held, &n.held);
    let wait = same_wait(m.waits_for, n.waits_for);
    owner && switch && held && wait && place
}

/// Whether events are all among others.
fn is_within(events: u32, others: u32) -> bool
    ensures { result ≡ is_within events others }
{
    events & others == events
}

/// Whether the first node covers the second: it is the same, knows no more of registers, and has no
/// fewer events used.
pub fn covers(m: &Node, n: &Node) -> bool
    ensures { result ≡ covers (node_by m.now) (node_by n.now) }
{
    if !is_beside(m, n) {
        return false;
    }
    let registers = know_no_more(&m.registers, &n.registers);
    let used = is_within(n.used, m.used);
    registers && used
}
