//! What stands in a work file: of tasks and routines, each by its name, their bodies, and when
//! interrupts arrive. What isn't told works one tick.

use crate::of_oil::{cyclic_alarms, has_routine, has_task, priority_of};
use make_descriptions::checks::add_name;
use make_descriptions::description::{
    Arriving, Body, Described, Does, Interrupt, Release, Step, Task,
};
use make_descriptions::fault::{Fault, Wrong, tell};
use make_descriptions::names::is_among;
use make_descriptions::node::{Kind, Node};
use make_descriptions::read_arrivals::arriving;
use make_descriptions::read_sections::{deadline, end_of_arrivals, is_full, root_of};
use make_descriptions::read_steps::body;
use make_descriptions::read_tables::{Found, Table};
use make_descriptions::times::tell_tick;
use oil_reader::OilFile;
use osek_base::{MAX_ROUTINES, MAX_TASKS};
use std::alloc::{AllocError, Global};

/// The keys of a work file.
const ROOT_KEYS: [&str; 2] = ["tick", "ticks"];

const TASK_KEYS: [&str; 4] = ["name", "deadline", "body", "loop"];

const INTERRUPT_KEYS: [&str; 10] = [
    "name", "period", "offset", "jitter", "seed", "ticks", "least", "most", "deadline", "body",
];

/// Of the keys of a description those that the OIL file tells.
const ROOT_OF_OIL: [&str; 3] = ["name", "mode", "modes"];

const TASK_OF_OIL: [&str; 11] = [
    "priority",
    "activations",
    "schedule",
    "internal",
    "autostart",
    "modes",
    "period",
    "offset",
    "least",
    "most",
    "seed",
];

const INTERRUPT_OF_OIL: [&str; 1] = ["priority"];

/// A task or a routine of which no work is told, so that it works one tick.
#[derive(Clone, Copy)]
pub(crate) struct Bare<'a> {
    /// Its kind in OIL.
    pub kind: &'static str,
    pub name: &'a str,
    pub is_named: bool,
}

/// A work file that is read.
#[derive(Drop)]
pub(crate) struct WorkFile<'a> {
    /// Its tasks and routines, and behind them those of the OIL file that it doesn't name.
    pub described: Described<'a>,
    pub bare: Vec<Bare<'a>>,
    tasks: Vec<&'a str>,
    routines: Vec<&'a str>,
}

/// Tells of each key that the OIL file tells.
fn tell_of_oil<'a>(
    table: &Table<'a>,
    keys: &[&'static str],
    whose: &'static str,
    faults: &mut Vec<Fault<'a>>,
) -> Result<(), AllocError> {
    for key in keys {
        if let Some(Found { node, .. }) = table.find(*key) {
            tell(faults, node.key_place, Wrong::OfOil(*key, whose))?;
        }
    }
    Ok(())
}

/// The body of what isn't told: one tick of work.
fn one_tick<'a>(alloc: Global, place: usize) -> Result<Body<'a>, AllocError> {
    let mut steps = Vec::new(alloc);
    steps.push(Step {
        place,
        does: Does::Work(1),
    })?;
    Ok(Body {
        place,
        steps,
        is_looped: false,
    })
}

/// A task with a body; all else of it stands in the OIL file.
fn task<'a>(
    name: &'a str,
    priority: u32,
    place: usize,
    deadline: Option<u32>,
    body: Body<'a>,
) -> Task<'a> {
    Task {
        name,
        place,
        priority,
        activations: 1,
        activations_place: place,
        is_non: false,
        starts: false,
        modes: None,
        internal: None,
        release: Release::Others,
        deadline,
        body,
    }
}

fn interrupt<'a>(
    name: &'a str,
    place: usize,
    arriving: Arriving,
    deadline: Option<u32>,
    body: Body<'a>,
) -> Interrupt<'a> {
    Interrupt {
        name,
        place,
        priority: 0,
        arriving,
        deadline,
        body,
    }
}

/// The place of a table's name, or of the table where it has none.
fn name_place(table: &Table<'_>) -> usize {
    match table.find("name") {
        Some(Found { node, .. }) => node.place,
        None => table.place,
    }
}

/// The name of a section, told where it has none.
fn section_name<'a>(
    table: &Table<'a>,
    faults: &mut Vec<Fault<'a>>,
) -> Result<Option<&'a str>, AllocError> {
    if table.find("name").is_none() {
        tell(faults, table.place, Wrong::Missing("name"))?;
    }
    table.text("name", faults)
}

/// The name of a task's section, told where the OIL file has no such task; empty where it has none.
fn task_name<'a>(
    table: &Table<'a>,
    file: &OilFile,
    faults: &mut Vec<Fault<'a>>,
) -> Result<&'a str, AllocError> {
    match section_name(table, faults)? {
        Some(name) if !has_task(file, name) => {
            tell(faults, name_place(table), Wrong::UnknownTask(name))?;
            Ok(name)
        }
        name => Ok(name.unwrap_or("")),
    }
}

/// The same of a routine's section.
fn routine_name<'a>(
    table: &Table<'a>,
    file: &OilFile,
    faults: &mut Vec<Fault<'a>>,
) -> Result<&'a str, AllocError> {
    match section_name(table, faults)? {
        Some(name) if !has_routine(file, name) => {
            tell(faults, name_place(table), Wrong::UnknownRoutine(name))?;
            Ok(name)
        }
        name => Ok(name.unwrap_or("")),
    }
}

impl<'a> WorkFile<'a> {
    /// A file without sections.
    fn new(
        alloc: Global,
        nodes: &'a [Node],
        file: &'a OilFile,
        faults: &mut Vec<Fault<'a>>,
    ) -> Result<Self, AllocError> {
        let root = root_of(nodes);
        let _ = root.tell_unknown(alloc, &ROOT_KEYS, &ROOT_OF_OIL, "the system", faults)?;
        tell_of_oil(&root, &ROOT_OF_OIL, "the system", faults)?;
        tell_tick(&root, faults)?;
        Ok(WorkFile {
            described: Described {
                name: file.cpu().as_str(),
                modes: Vec::new(alloc),
                ticks: end_of_arrivals(&root, faults)?,
                tasks: Vec::new(alloc),
                interrupts: Vec::new(alloc),
                alarms: cyclic_alarms(alloc, file)?,
            },
            bare: Vec::new(alloc),
            tasks: Vec::new(alloc),
            routines: Vec::new(alloc),
        })
    }

    /// The body that a table has, or else one tick of work.
    fn body_of(
        &mut self,
        alloc: Global,
        table: &Table<'a>,
        kind: &'static str,
        name: &'a str,
        faults: &mut Vec<Fault<'a>>,
    ) -> Result<Body<'a>, AllocError> {
        let body = body(alloc, table, faults)?;
        if body.is_looped || table.find("body").is_some() {
            return Ok(body);
        }
        self.bare.push(Bare {
            kind,
            name,
            is_named: true,
        })?;
        one_tick(alloc, table.place)
    }

    fn add_task(
        &mut self,
        alloc: Global,
        table: &Table<'a>,
        file: &'a OilFile,
        faults: &mut Vec<Fault<'a>>,
    ) -> Result<(), AllocError> {
        let _ = table.tell_unknown(alloc, &TASK_KEYS, &TASK_OF_OIL, "a task", faults)?;
        tell_of_oil(table, &TASK_OF_OIL, "a task", faults)?;
        let name = task_name(table, file, faults)?;
        add_name(name, name_place(table), &mut self.tasks, faults)?;
        let deadline = deadline(table, faults)?;
        let body = self.body_of(alloc, table, "TASK", name, faults)?;
        self.described.tasks.push(task(
            name,
            priority_of(file, name),
            table.place,
            deadline,
            body,
        ))?;
        Ok(())
    }

    fn add_interrupt(
        &mut self,
        alloc: Global,
        table: &Table<'a>,
        file: &'a OilFile,
        faults: &mut Vec<Fault<'a>>,
    ) -> Result<(), AllocError> {
        let others = &INTERRUPT_OF_OIL;
        let _ = table.tell_unknown(alloc, &INTERRUPT_KEYS, others, "an interrupt", faults)?;
        tell_of_oil(table, &INTERRUPT_OF_OIL, "an interrupt", faults)?;
        let name = routine_name(table, file, faults)?;
        add_name(name, name_place(table), &mut self.routines, faults)?;
        let arriving = arriving(alloc, table, faults)?;
        let deadline = deadline(table, faults)?;
        let body = self.body_of(alloc, table, "ISR", name, faults)?;
        self.described
            .interrupts
            .push(interrupt(name, table.place, arriving, deadline, body))?;
        Ok(())
    }

    /// Adds what a section tells. False where there are too many of its kind.
    fn add_section(
        &mut self,
        alloc: Global,
        table: &Table<'a>,
        key: &'a str,
        file: &'a OilFile,
        faults: &mut Vec<Fault<'a>>,
    ) -> Result<bool, AllocError> {
        let place = table.place;
        if key == "task" {
            if is_full(self.tasks.len(), MAX_TASKS, "tasks", place, faults)? {
                return Ok(false);
            }
            self.add_task(alloc, table, file, faults)?;
        } else if key == "interrupt" {
            if is_full(
                self.routines.len(),
                MAX_ROUTINES,
                "interrupts",
                place,
                faults,
            )? {
                return Ok(false);
            }
            self.add_interrupt(alloc, table, file, faults)?;
        } else {
            tell(faults, place, Wrong::UnknownWork(key))?;
        }
        Ok(true)
    }

    /// Adds the tasks of the OIL file that aren't named.
    fn add_bare_tasks(&mut self, alloc: Global, file: &'a OilFile) -> Result<(), AllocError> {
        for object in file.tasks() {
            let name = object.name.as_str();
            if !is_among(self.tasks.as_slice(), name) {
                let body = one_tick(alloc, 0)?;
                self.described
                    .tasks
                    .push(task(name, object.priority as u32, 0, None, body))?;
                self.bare.push(Bare {
                    kind: "TASK",
                    name,
                    is_named: false,
                })?;
            }
        }
        Ok(())
    }

    /// Adds the routines of the OIL file that aren't named.
    fn add_bare_routines(&mut self, alloc: Global, file: &'a OilFile) -> Result<(), AllocError> {
        for object in file.routines() {
            let name = object.name.as_str();
            if !is_among(self.routines.as_slice(), name) {
                let body = one_tick(alloc, 0)?;
                let routine = interrupt(name, 0, Arriving::Never, None, body);
                self.described.interrupts.push(routine)?;
                self.bare.push(Bare {
                    kind: "ISR",
                    name,
                    is_named: false,
                })?;
            }
        }
        Ok(())
    }
}

/// What a text tells of the tasks and routines of an OIL file.
pub(crate) fn work_file<'a>(
    alloc: Global,
    nodes: &'a [Node],
    file: &'a OilFile,
    faults: &mut Vec<Fault<'a>>,
) -> Result<WorkFile<'a>, AllocError> {
    let mut work = WorkFile::new(alloc, nodes, file, faults)?;
    for (at, node) in nodes.iter().enumerate() {
        if node.kind == Kind::Section {
            let table = Table::of(nodes, at, node);
            if !work.add_section(alloc, &table, node.key.as_str(), file, faults)? {
                return Ok(work);
            }
        }
    }
    work.add_bare_tasks(alloc, file)?;
    work.add_bare_routines(alloc, file)?;
    Ok(work)
}
