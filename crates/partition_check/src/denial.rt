//! Partitions. The rules, and what breaks one of them.

ghost use Rattle.std.specs.Prelude.{◌≡◌};
ghost use Rattle.osek_base.specs.Names.{HasOwner, owner_name};
ghost use Rattle.partition_check.specs.Partition.{rule_number};

use osek_base::{Name, Names, Owner, System};
use std::fmt;
use std::marker::Model;

/// A rule under which the upper part of a system is separable from the lower one.
#[derive(Clone, Copy, Debug, PartialEq, Eq)]
pub enum Rule {
    /// Lower tasks have SCHEDULE FULL.
    FullPreemption,
    /// Lower tasks list no resource, standard or internal, whose ceiling is upper.
    LowerResources,
    /// Lower programs never name RES_SCHEDULER.
    NoScheduler,
    /// Lower programs leave interrupts as they are, and don't shut down.
    NoControl,
    /// Lower programs name only lower objects.
    LowerNames,
    /// Programs of upper tasks and of routines name only upper objects, or RES_SCHEDULER.
    UpperNames,
    /// No routine asks which task runs.
    NoTaskId,
}

impl Rule {
    /// The number of the rule, 1 to 7.
    pub fn number(self) -> u8
        ensures { result ≡ rule_number self }
    {
        match self {
            Rule::FullPreemption => 1,
            Rule::LowerResources => 2,
            Rule::NoScheduler => 3,
            Rule::NoControl => 4,
            Rule::LowerNames => 5,
            Rule::UpperNames => 6,
            Rule::NoTaskId => 7,
        }
    }
}

/// Where a rule is broken: its first subject, and for the rules on programs the first place of its program.
#[derive(Clone, Copy, Debug, PartialEq, Eq)]
pub struct Denial {
    pub rule: Rule,
    /// A task by its number or a routine as declared.
    pub subject: Owner,
    /// The place of an instruction, 0 to 1,023.
    pub place: Option<u16>,
}

impl Model for Denial {
    ghost use Rattle.partition_check.specs.Partition.{Told};

    ghost Value = { Told };

    ghost view = { λ d. record { rule = d.rule; subject = d.subject; place = d.place } };

    ghost inverse = { λ d. record { rule = d.rule; subject = d.subject; place = d.place } };
}

impl Denial {
    /// The denial with its subject's name, as the system has it.
    pub fn named(self, system: &System) -> NamedDenial
        requires { HasOwner system.now.names self.subject }
        ensures denial { result.denial ≡ self }
        ensures name { result.name ≡ owner_name system.now.names self.subject }
    {
        NamedDenial {
            denial: self,
            name: name_of(system.names(), self.subject),
        }
    }
}

/// The name of a task or routine.
fn name_of(names: &Names, owner: Owner) -> Name
    requires { HasOwner names.now owner }
    ensures { result ≡ owner_name names.now owner }
{
    let name = match owner {
        Owner::Task(task) => names.tasks[task.number() as usize].as_str(),
        Owner::Routine(routine) => names.routines[routine.number() as usize].as_str(),
    };
    Name::new(name).unwrap()
}

/// A denial with the name of its subject. A task and a routine may have one name: the denial tells which of them it is.
#[derive(Debug, Drop)]
pub struct NamedDenial {
    pub denial: Denial,
    pub name: Name,
}

impl fmt::Display for NamedDenial {
    fn fmt<W: fmt::Write>(&self, f: &mut fmt::Formatter<W>) -> fmt::Result {
        let denial = self.denial;
        let rule = denial.rule.number();
        let name = self.name.as_str();
        match denial.place {
            None => write!(f, "rule {rule}, {name}"),
            Some(place) => write!(f, "rule {rule}, {name}, {place}"),
        }
    }
}
