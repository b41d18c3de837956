//! The system of the row `preempted_is_oldest`, in which C preempts A, with four resources.

use crate::systems::system_of;
use osek_base::System;
use std::alloc::Global;
use std::test::Fail;

const OIL: &str = "OIL_VERSION = \"2.5\";
CPU c {
  OS o { STATUS = EXTENDED; STARTUPHOOK = FALSE; ERRORHOOK = FALSE;
    SHUTDOWNHOOK = FALSE; PRETASKHOOK = TRUE; POSTTASKHOOK = TRUE; };
  APPMODE M {};
  TASK A { PRIORITY = 1; SCHEDULE = FULL; ACTIVATION = 1; AUTOSTART = TRUE { APPMODE = M; }; };
  TASK B { PRIORITY = 1; SCHEDULE = FULL; ACTIVATION = 1; AUTOSTART = FALSE; };
  TASK C { PRIORITY = 2; SCHEDULE = FULL; ACTIVATION = 1; AUTOSTART = FALSE; };
  RESOURCE R0 { RESOURCEPROPERTY = STANDARD; };
  RESOURCE R1 { RESOURCEPROPERTY = STANDARD; };
  RESOURCE R2 { RESOURCEPROPERTY = STANDARD; };
  RESOURCE R3 { RESOURCEPROPERTY = STANDARD; };
};
";

/// C preempts A, which goes on before B of its priority.
const PROGRAMS: &str = ".task A\nACT B\nACT C\nNOP\nTERM\nz: JMP z
.task B\nTERM\nz: JMP z\n.task C\nTERM\nz: JMP z\n";

pub fn three_tasks(alloc: Global) -> Result<System, Fail> {
    system_of(alloc, OIL, PROGRAMS)
}
