//! OSEK/VDX OS: interrupt handling; operating system execution control. Services without a status
//! at a node.

ghost use Rattle.std.specs.Prelude.{◌≡◌, ◌<◌, ◌∷◌, [], IfOk, IfSome, map};
ghost use Rattle.osek_base.specs.declared.limits.TheConstants.{MAX_INSTRUCTIONS};
ghost use Rattle.law_costs.specs.Left.{is_off, on};
ghost use Rattle.law_nodes.specs.Services.{next_node};
ghost use Rattle.law_nodes.specs.Steps.{control_steps, switched_by};
ghost use Rattle.analysis_nodes.specs.Nodes.{node_by, switch_by};

use crate::node::Node;
use crate::stepping::{alone, node_with_switch};
use crate::switch::Switch;
use osek_base::{Control, MAX_INSTRUCTIONS, Owner};
use std::alloc::{AllocError, Global};

/// Whether interrupts are off.
pub(crate) fn is_off(switch: &Switch) -> bool
    ensures { result ≡ is_off (switch_by switch.now) }
{
    let all = 0 < switch.suspended_all;
    let os = 0 < switch.suspended_os;
    switch.disabled || all || os
}

/// Interrupts are on.
fn switch_on() -> Switch
    ensures { switch_by result ≡ on }
{
    Switch {
        disabled: false,
        suspended_all: 0,
        suspended_os: 0,
    }
}

/// The switch behind a service. None where a count of suspensions would leave its range.
fn switched(control: Control, switch: Switch) -> Option<Switch>
    ensures { IfSome result (λ next. switch_by next ≡ switched_by control (switch_by switch)) }
{
    match control {
        Control::DisableAllInterrupts => Some(Switch {
            disabled: true,
            ..switch
        }),
        Control::EnableAllInterrupts => Some(Switch {
            disabled: false,
            ..switch
        }),
        Control::SuspendAllInterrupts => match switch.suspended_all.checked_add(1) {
            None => None,
            Some(suspended_all) => Some(Switch {
                suspended_all,
                ..switch
            }),
        },
        Control::ResumeAllInterrupts => Some(Switch {
            suspended_all: switch.suspended_all.saturating_sub(1),
            ..switch
        }),
        Control::SuspendOsInterrupts => match switch.suspended_os.checked_add(1) {
            None => None,
            Some(suspended_os) => Some(Switch {
                suspended_os,
                ..switch
            }),
        },
        Control::ResumeOsInterrupts => Some(Switch {
            suspended_os: switch.suspended_os.saturating_sub(1),
            ..switch
        }),
        Control::ShutdownOs(_) => Some(switch),
        Control::ReturnFromInterrupt => Some(switch_on()),
    }
}

/// The node behind a service that only switches interrupts.
fn node_switched(
    alloc: Global,
    node: &Node,
    control: Control,
) -> Result<Option<Vec<Node>>, AllocError>
    requires { node.now.place < MAX_INSTRUCTIONS }
    ensures { IfOk result (λ found. IfSome found (λ nodes. map node_by nodes.items
        ≡ record (next_node (node_by node.now)) {
          switch = switched_by control (switch_by node.now.switch);
        } ∷ [])) }
{
    match switched(control, node.switch) {
        None => Ok(None),
        Some(switch) => Ok(Some(alone(alloc, node_with_switch(alloc, node, switch)?)?)),
    }
}

/// What may become of who executes a service without a status at a node. None where a count of
/// suspensions would leave its range.
pub(crate) fn control_steps(
    alloc: Global,
    node: &Node,
    control: Control,
) -> Result<Option<Vec<Node>>, AllocError>
    requires { node.now.place < MAX_INSTRUCTIONS }
    ensures { IfOk result (λ found. IfSome found (λ nodes. map node_by nodes.items
        ≡ control_steps control (node_by node.now))) }
{
    match control {
        Control::DisableAllInterrupts => node_switched(alloc, node, control),
        Control::EnableAllInterrupts => node_switched(alloc, node, control),
        Control::SuspendAllInterrupts => node_switched(alloc, node, control),
        Control::ResumeAllInterrupts => node_switched(alloc, node, control),
        Control::SuspendOsInterrupts => node_switched(alloc, node, control),
        Control::ResumeOsInterrupts => node_switched(alloc, node, control),
        Control::ShutdownOs(_) => Ok(Some(Vec::new(alloc))),
        Control::ReturnFromInterrupt => match node.owner {
            Owner::Task(_) => node_switched(alloc, node, control),
            Owner::Routine(_) => Ok(Some(Vec::new(alloc))),
        },
    }
}
