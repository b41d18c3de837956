//! Runs over both kinds of ready queues have equal lines: systems of `rows`, here with all hooks.

use crate::lines::push_run;
use crate::systems::system_of;
use arrival_reader::read_arrivals;
use kernel::Kernel;
use ready_queues::{LevelQueues, ListQueues, ReadyQueues};
use std::alloc::Global;
use std::test::Fail;

/// What stands before the objects of a run: all hooks are on.
const HEAD: &str = "OIL_VERSION = \"2.5\";
CPU c {
  OS o { STATUS = EXTENDED; STARTUPHOOK = TRUE; ERRORHOOK = TRUE;
    SHUTDOWNHOOK = TRUE; PRETASKHOOK = TRUE; POSTTASKHOOK = TRUE; };
  APPMODE M {};
";

/// A run in the mode M.
struct Case {
    /// The folder in `rows/systems` that has its system, and its lines over queues by level.
    row: &'static str,
    /// The objects behind the OS and the mode.
    objects: &'static str,
    /// The programs of tasks and routines.
    programs: &'static str,
    /// The arrival list.
    arrivals: &'static str,
    /// How many ticks it has, where no ShutdownOS ends it.
    ticks: u32,
}

/// Rows in which jobs are made, preempted, lowered, released, chained and put off.
const CASES: [Case; 8] = [
    Case {
        row: "preempted_is_oldest",
        objects: "
TASK A { PRIORITY = 1; SCHEDULE = FULL; ACTIVATION = 1; AUTOSTART = TRUE { APPMODE = M; }; };
TASK B { PRIORITY = 1; SCHEDULE = FULL; ACTIVATION = 1; AUTOSTART = FALSE; };
TASK C { PRIORITY = 2; SCHEDULE = FULL; ACTIVATION = 1; AUTOSTART = FALSE; };",
        programs: ".task A\nACT B\nACT C\nNOP\nTERM\nz: JMP z\n.task B\nTERM\nz: JMP z
.task C\nTERM\nz: JMP z\n",
        arrivals: "",
        ticks: 6,
    },
    Case {
        row: "activation_order",
        objects: "
TASK A { PRIORITY = 1; SCHEDULE = FULL; ACTIVATION = 3; AUTOSTART = FALSE; };
TASK B { PRIORITY = 1; SCHEDULE = FULL; ACTIVATION = 3; AUTOSTART = FALSE; };
TASK D { PRIORITY = 9; SCHEDULE = FULL; ACTIVATION = 1; AUTOSTART = TRUE { APPMODE = M; }; };",
        programs: ".task A\nTERM\nz: JMP z\n.task B\nTERM\nz: JMP z
.task D\nACT A\nACT B\nACT A\nACT B\nACT A\nACT A\nTERM\nz: JMP z\n",
        arrivals: "",
        ticks: 13,
    },
    Case {
        row: "chain_to_itself",
        objects: "
TASK A { PRIORITY = 1; SCHEDULE = FULL; ACTIVATION = 1; AUTOSTART = TRUE { APPMODE = M; }; };
TASK B { PRIORITY = 1; SCHEDULE = FULL; ACTIVATION = 1; AUTOSTART = FALSE; };",
        programs: ".task A\nACT B\nCHAIN A\nz: JMP z\n.task B\nTERM\nz: JMP z\n",
        arrivals: "",
        ticks: 6,
    },
    Case {
        row: "schedule",
        objects: "
TASK A { PRIORITY = 1; SCHEDULE = FULL; ACTIVATION = 1;
  AUTOSTART = TRUE { APPMODE = M; }; RESOURCE = I; };
TASK C { PRIORITY = 3; SCHEDULE = FULL; ACTIVATION = 1; AUTOSTART = FALSE; RESOURCE = I; };
TASK B { PRIORITY = 1; SCHEDULE = FULL; ACTIVATION = 1; AUTOSTART = FALSE; };
TASK D { PRIORITY = 2; SCHEDULE = FULL; ACTIVATION = 1; AUTOSTART = FALSE; };
RESOURCE I { RESOURCEPROPERTY = INTERNAL; };",
        programs: ".task A\nACT B\nSCHED\nACT D\nNOP\nSCHED\nTERM\nz: JMP z
.task B\nTERM\nz: JMP z\n.task C\nTERM\nz: JMP z\n.task D\nTERM\nz: JMP z\n",
        arrivals: "",
        ticks: 8,
    },
    Case {
        row: "nested_resources",
        objects: "
TASK A { PRIORITY = 1; SCHEDULE = FULL; ACTIVATION = 1;
  AUTOSTART = TRUE { APPMODE = M; }; RESOURCE = R; RESOURCE = S; };
TASK B { PRIORITY = 2; SCHEDULE = FULL; ACTIVATION = 1; AUTOSTART = FALSE; RESOURCE = R; };
TASK C { PRIORITY = 3; SCHEDULE = FULL; ACTIVATION = 1; AUTOSTART = FALSE; RESOURCE = S; };
RESOURCE R { RESOURCEPROPERTY = STANDARD; }; RESOURCE S { RESOURCEPROPERTY = STANDARD; };",
        programs: ".task A\nGETR R\nGETR S\nRELR R\nACT B\nACT C\nRELR S\nRELR R\nTERM\nz: JMP z
.task B\nTERM\nz: JMP z\n.task C\nTERM\nz: JMP z\n",
        arrivals: "",
        ticks: 10,
    },
    Case {
        row: "released_is_newest",
        objects: "
TASK X { PRIORITY = 1; SCHEDULE = FULL; ACTIVATION = 1;
  AUTOSTART = TRUE { APPMODE = M; }; EVENT = E; };
TASK Y { PRIORITY = 1; SCHEDULE = FULL; ACTIVATION = 1; AUTOSTART = FALSE; EVENT = E; };
TASK D { PRIORITY = 2; SCHEDULE = FULL; ACTIVATION = 1; AUTOSTART = FALSE; };
EVENT E { MASK = AUTO; }; COUNTER C { MAXALLOWEDVALUE = 7; TICKSPERBASE = 1; MINCYCLE = 1; };
ALARM AL { COUNTER = C; ACTION = ACTIVATETASK { TASK = D; };
  AUTOSTART = TRUE { ALARMTIME = 2; CYCLETIME = 0; APPMODE = M; }; };",
        programs: ".task X\nWAIT E\nTERM\nz: JMP z\n.task Y\nTERM\nz: JMP z
.task D\nACT Y\nSETE X, E\nTERM\nz: JMP z\n",
        arrivals: "",
        ticks: 8,
    },
    Case {
        row: "interrupts_off",
        objects: "
TASK A { PRIORITY = 1; SCHEDULE = FULL; ACTIVATION = 1; AUTOSTART = TRUE { APPMODE = M; }; };
TASK B { PRIORITY = 2; SCHEDULE = FULL; ACTIVATION = 1; AUTOSTART = FALSE; };
COUNTER C { MAXALLOWEDVALUE = 7; TICKSPERBASE = 1; MINCYCLE = 1; };
ALARM AL { COUNTER = C; ACTION = ACTIVATETASK { TASK = B; };
  AUTOSTART = TRUE { ALARMTIME = 1; CYCLETIME = 0; APPMODE = M; }; };",
        programs: ".task A\nSOI\nNOP\nACT B\nROI\nDAI\nNOP\nEAI\nTERM\nz: JMP z
.task B\nTERM\nz: JMP z\n",
        arrivals: "",
        ticks: 10,
    },
    Case {
        row: "routine_refused",
        objects: "
TASK A { PRIORITY = 1; SCHEDULE = FULL; ACTIVATION = 1; AUTOSTART = FALSE; RESOURCE = R; };
ISR I { CATEGORY = 2; }; RESOURCE R { RESOURCEPROPERTY = STANDARD; }; EVENT E { MASK = AUTO; };",
        programs: ".task A\nTERM\nz: JMP z\n.isr I\nTERM\nCHAIN INVALID\nSCHED\nWAIT E\nCLRE E
GETR R\nRELR R\nGETR INVALID\nSAI\nACT A\nRETI\n",
        arrivals: "0 I\n",
        ticks: 14,
    },
];

/// The lines of a case over one kind of queues.
fn lines_of<Q: ReadyQueues>(alloc: Global, case: &Case) -> Result<String, Fail> {
    let mut oil = String::from_str(alloc, HEAD)?;
    oil.push_str(case.objects)?;
    oil.push_str("\n};\n")?;
    let system = system_of(alloc, oil.as_str(), case.programs)?;
    let arrivals = read_arrivals(alloc, case.arrivals.as_bytes(), &system)?;
    let mut kernel: Kernel<'_, Q> = Kernel::boot(alloc, &system, "M", arrivals)?;
    let mut text = String::new(alloc);
    push_run(&mut text, &system, &mut kernel, case.ticks)?;
    Ok(text)
}

/// The first row whose lines differ, or that has none.
fn first_different(alloc: Global) -> Result<Option<&'static str>, Fail> {
    for case in &CASES {
        let lists = lines_of::<ListQueues>(alloc, case)?;
        let levels = lines_of::<LevelQueues>(alloc, case)?;
        if lists.is_empty() || lists.as_str() != levels.as_str() {
            return Ok(Some(case.row));
        }
    }
    Ok(None)
}

#[test]
fn lines_are_equal_over_both_kinds_of_queues(rt: HostRuntime) -> Result<(), Fail> {
    assert_eq!(rt; first_different(rt.alloc())?, None);
    Ok(())
}
