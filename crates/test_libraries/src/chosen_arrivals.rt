//! A machine whose interrupts are chosen tick by tick, by what was seen of it so far: it has the
//! records of a kernel that is given the list that comes of it.

ghost use Rattle.std.specs.Prelude.{◌≡◌, ◌<◌, length};
ghost use Rattle.kernel.specs.Machine.{system_of};

use crate::lines::{push_line, push_lines, push_run};
use crate::systems::system_of;
use arrival_reader::read_arrivals;
use kernel::{Kernel, Machine};
use osek_base::{Executed, IsrId, MAX_TICKS, Owner, System, TickRecord, TraceEvent};
use ready_queues::LevelQueues;
use std::alloc::{AllocError, Global};
use std::fmt::Write;
use std::test::Fail;

const OIL: &str = "OIL_VERSION = \"2.5\";
CPU c {
  OS o { STATUS = EXTENDED; STARTUPHOOK = TRUE; ERRORHOOK = FALSE;
    SHUTDOWNHOOK = FALSE; PRETASKHOOK = FALSE; POSTTASKHOOK = FALSE; };
  APPMODE M {};
  TASK A { PRIORITY = 1; SCHEDULE = FULL; ACTIVATION = 1; AUTOSTART = TRUE { APPMODE = M; }; };
  ISR I { CATEGORY = 2; PRIORITY = 1; };
};
";

/// A counts its rounds in its first word.
const PROGRAMS: &str = ".task A\nLI r2, 1\nl: LD r1, r0\nADD r1, r1, r2\nST r0, r1\nJMP l
.isr I\nRETI\n";

/// The place at which A stores the number of its rounds.
const STORE: u16 = 3;

/// A stores its first number in tick 3, and a round has four ticks. The interrupt arrives behind each
/// odd number, and its routine has one tick.
const LINES: &str = "0 startup
0 A 0 LI r2, 1 -> 1
1 A 1 LD r1, r0 -> 0
2 A 2 ADD r1, r1, r2 -> 1
3 A 3 ST r0, r1 -> [0] 1
4 I 0 RETI
5 A 4 JMP 1
6 A 1 LD r1, r0 -> 1
7 A 2 ADD r1, r1, r2 -> 2
8 A 3 ST r0, r1 -> [0] 2
9 A 4 JMP 1
10 A 1 LD r1, r0 -> 2
11 A 2 ADD r1, r1, r2 -> 3
12 A 3 ST r0, r1 -> [0] 3
13 I 0 RETI
14 A 4 JMP 1
";

const TICKS: u32 = 15;

const ARRIVALS: &str = "4 I\n13 I\n";

/// Whether the task has just stored an odd number.
fn has_stored_odd(machine: &Machine<'_, LevelQueues>, last: &Option<Executed>) -> bool {
    match last {
        None => false,
        Some(last) => match last.owner {
            Owner::Task(_) => last.place.number() == STORE && machine.word(last.owner, 0) % 2 == 1,
            Owner::Routine(_) => false,
        },
    }
}

/// What a machine has done: its lines, and the interrupts that arrived.
#[derive(Drop)]
struct Seen {
    text: String,
    /// The list of arrivals so far.
    arrived: String,
    last: Option<Executed>,
    before: TickRecord,
    behind: TickRecord,
}

impl Seen {
    fn new(alloc: Global) -> Self {
        Seen {
            text: String::new(alloc),
            arrived: String::new(alloc),
            last: None,
            before: TickRecord::new(),
            behind: TickRecord::new(),
        }
    }

    /// Does a tick, in which the interrupt arrives where it is wanted.
    fn tick(
        &mut self,
        machine: &mut Machine<'_, LevelQueues>,
        system: &System,
    ) -> Result<(), AllocError>
        requires system { system_of machine.old ≡ system.now }
        requires routine { 0 < length system.now.routines }
        ensures { system_of machine.new ≡ system.now }
    {
        if machine.is_shut_down() || MAX_TICKS <= machine.next_tick() {
            return Ok(());
        }
        let tick = machine.next_tick();
        let routine = IsrId::new(0);
        let is_wanted = has_stored_odd(machine, &self.last);
        let all = [routine];
        let arrived = if is_wanted { &all[..] } else { &all[..0] };
        self.last = machine.tick(arrived, &mut self.before, &mut self.behind);
        let record = match &self.last {
            None => TraceEvent::Idle,
            Some(executed) => executed.record_in(system),
        };
        if is_wanted {
            write!(self.arrived, "{tick} I\n")?;
        }
        push_lines(&mut self.text, system, tick, &self.before)?;
        push_line(&mut self.text, system, tick, &record)?;
        push_lines(&mut self.text, system, tick, &self.behind)
    }

    /// Does so many ticks.
    fn ticks(
        &mut self,
        machine: &mut Machine<'_, LevelQueues>,
        system: &System,
        count: u32,
    ) -> Result<(), AllocError>
        requires system { system_of machine.old ≡ system.now }
        requires routine { 0 < length system.now.routines }
        ensures { system_of machine.new ≡ system.now }
    {
        if count == 0 {
            return Ok(());
        }
        self.tick(machine, system)?;
        self.ticks(machine, system, count - 1)
    }
}

/// The lines of a kernel that is given all arrivals.
fn kernel_lines(alloc: Global, system: &System) -> Result<String, Fail> {
    let mut text = String::new(alloc);
    let arrivals = read_arrivals(alloc, ARRIVALS.as_bytes(), system)?;
    let mut kernel: Kernel<'_, LevelQueues> = Kernel::boot(alloc, system, "M", arrivals)?;
    push_run(&mut text, system, &mut kernel, TICKS)?;
    Ok(text)
}

/// What a machine does that is given each interrupt as it comes.
fn machine_run(alloc: Global, system: &System) -> Result<Seen, Fail>
    requires { 0 < length system.now.routines }
{
    let mode = system.names().mode("M").ok_or("mode")?;
    let mut machine: Machine<'_, LevelQueues> = Machine::boot(alloc, system, mode)?;
    let mut seen = Seen::new(alloc);
    seen.ticks(&mut machine, system, TICKS)?;
    Ok(seen)
}

#[test]
fn chosen_arrivals_give_the_kernels_records(rt: HostRuntime) -> Result<(), Fail> {
    let system = system_of(rt.alloc(), OIL, PROGRAMS)?;
    let count = system.routine_count();
    assert_eq!(rt; count, 1);
    if count == 1 {
        let seen = machine_run(rt.alloc(), &system)?;
        assert_eq!(rt; seen.text.as_str(), LINES);
        assert_eq!(rt; seen.arrived.as_str(), ARRIVALS);
        assert_eq!(rt; kernel_lines(rt.alloc(), &system)?.as_str(), LINES);
    }
    Ok(())
}
