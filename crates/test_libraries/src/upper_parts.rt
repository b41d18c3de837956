//! The upper part of a system by itself, by public calls: of two systems that agree from 5 upward, one whose lower task
//! ends and one whose lower task goes round, the upper part is booted, and its view is looked at tick by tick.

use crate::lines::push_lines;
use crate::systems::system_of;
use kernel::Kernel;
use osek_base::{Arrivals, System, TickRecord};
use partition_check::{check_partition, upper_only};
use ready_queues::LevelQueues;
use std::alloc::{AllocError, Global};
use std::test::Fail;
use trace_lines::upper_view;

const OIL: &str = "OIL_VERSION = \"2.5\";
CPU c {
  OS o { STATUS = EXTENDED; STARTUPHOOK = FALSE; ERRORHOOK = FALSE;
    SHUTDOWNHOOK = FALSE; PRETASKHOOK = FALSE; POSTTASKHOOK = FALSE; };
  APPMODE M {};
  TASK U { PRIORITY = 5; SCHEDULE = FULL; ACTIVATION = 1; AUTOSTART = FALSE; };
  TASK L { PRIORITY = 1; SCHEDULE = FULL; ACTIVATION = 1; AUTOSTART = TRUE { APPMODE = M; }; };
  COUNTER C { MAXALLOWEDVALUE = 7; TICKSPERBASE = 1; MINCYCLE = 1; };
  ALARM AL { COUNTER = C; ACTION = ACTIVATETASK { TASK = U; };
    AUTOSTART = TRUE { ALARMTIME = 2; CYCLETIME = 3; APPMODE = M; }; };
};
";

const UPPER: &str = ".task U\nLI r1, 9\nTERM\nz: JMP z\n";

const ENDING: &str = ".task L\nTERM\nz: JMP z\n";

const GOING_ROUND: &str = ".task L\nl: ACT L\nJMP l\nz: JMP z\n";

/// The alarm activates U at tick 2 and each 3 ticks after that.
const VIEW: &str = "0 other
1 other
2 U 0 LI r1, 9 -> 9
3 U 1 TERM = 0
4 other
5 U 0 LI r1, 9 -> 9
6 U 1 TERM = 0
";

/// The system with that lower task.
fn system_with(alloc: Global, lower: &str) -> Result<System, Fail> {
    let mut programs = String::from_str(alloc, UPPER)?;
    programs.push_str(lower)?;
    system_of(alloc, OIL, programs.as_str())
}

/// The view at 5 of the first seven ticks of a system in the mode M.
fn view_of(alloc: Global, system: &System) -> Result<String, Fail> {
    let mut text = String::new(alloc);
    let arrivals = Arrivals::new(Vec::new(alloc)).ok_or("arrivals")?;
    let mut kernel: Kernel<'_, LevelQueues> = Kernel::boot(alloc, system, "M", arrivals)?;
    for tick in 0..7 {
        if !kernel.is_over() {
            let records = kernel.tick();
            push_lines(&mut text, system, tick, &upper_view(system, 5, &records))?;
        }
    }
    Ok(text)
}

/// The upper part at 5 of a system, where it is separable.
fn part_of(alloc: Global, system: &System) -> Result<System, Fail> {
    match check_partition(system, 5) {
        Ok(()) => Ok(upper_only(alloc, system, 5)?),
        Err(_) => Err(Fail::from("denied")),
    }
}

#[test]
fn the_upper_part_by_itself_has_the_view(rt: HostRuntime) -> Result<(), Fail> {
    for lower in [ENDING, GOING_ROUND] {
        let system = system_with(rt.alloc(), lower)?;
        let part = part_of(rt.alloc(), &system)?;
        assert_eq!(rt; part.task_count(), 1);
        assert_eq!(rt; view_of(rt.alloc(), &part)?.as_str(), VIEW);
        assert_eq!(rt; view_of(rt.alloc(), &system)?.as_str(), VIEW);
    }
    Ok(())
}
