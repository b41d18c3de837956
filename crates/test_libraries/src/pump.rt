//! A pump that counts its strokes in word 1 of its window and keeps its state in word 0, where only
//! the state is compared.

use crate::systems::system_of;
use osek_base::{Owner, TaskId};
use search_needs::needed_data;
use std::test::Fail;

const OIL: &str = "OIL_VERSION = \"2.5\";
CPU c {
  OS o { STATUS = EXTENDED; STARTUPHOOK = FALSE; ERRORHOOK = FALSE;
    SHUTDOWNHOOK = FALSE; PRETASKHOOK = FALSE; POSTTASKHOOK = FALSE; };
  APPMODE M {};
  TASK P { PRIORITY = 1; SCHEDULE = FULL; ACTIVATION = 1; AUTOSTART = TRUE { APPMODE = M; }; };
};
";

/// r4 is 0, r5 the state, r6 1, r7 the strokes. A pump that isn't in state 1 comes into it.
const PROGRAM: &str = ".task P
s: LI r4, 0
LD r5, r4
LI r6, 1
LD r7, r6
ADD r7, r7, r6
ST r6, r7
JEQ r5, r6, on
ST r4, r6
on: JMP s
";

#[test]
fn the_state_is_needed_and_the_strokes_are_not(rt: HostRuntime) -> Result<(), Fail> {
    let system = system_of(rt.alloc(), OIL, PROGRAM)?;
    let needs = needed_data(rt.alloc(), &system)?;
    let pump = Owner::Task(TaskId::new(0));
    let registers = needs.needed_registers(pump);
    assert!(rt; needs.needed_words(pump) == 0b1);
    assert!(rt; registers & 1 << 5 != 0 && registers & 1 << 7 == 0);
    Ok(())
}
