//! Printed texts that were written by hand. A text that is printed is printed as it is.

use oil_printer::print_oil;
use oil_reader::read_oil;
use std::alloc::Global;
use std::test::Fail;

const ONE_TASK: &str = "OIL_VERSION = \"2.5\";
CPU c {
  OS o { STATUS = EXTENDED; STARTUPHOOK = FALSE; ERRORHOOK = FALSE;
    SHUTDOWNHOOK = FALSE; PRETASKHOOK = FALSE; POSTTASKHOOK = FALSE; };
  APPMODE M {};
  TASK A { PRIORITY = 1; SCHEDULE = FULL; ACTIVATION = 1;
    AUTOSTART = TRUE { APPMODE = M; }; };
};
";

const ONE_TASK_PRINTED: &str = "OIL_VERSION = \"2.5\";
CPU c {
  OS o {
    STATUS = EXTENDED;
    STARTUPHOOK = FALSE;
    ERRORHOOK = FALSE;
    SHUTDOWNHOOK = FALSE;
    PRETASKHOOK = FALSE;
    POSTTASKHOOK = FALSE;
    USERESSCHEDULER = TRUE;
  };
  APPMODE M {
  };
  TASK A {
    PRIORITY = 1;
    SCHEDULE = FULL;
    ACTIVATION = 1;
    AUTOSTART = TRUE { APPMODE = M; };
  };
};
";

const ALL_KINDS: &str = "OIL_VERSION = \"2.5\"; // all kinds, in another order
CPU c1 {
  ALARM L { AUTOSTART = TRUE { CYCLETIME = 3; APPMODE = N; APPMODE = M; ALARMTIME = 0x2F; };
    ACTION = SETEVENT { EVENT = E; TASK = A; }; COUNTER = C; };
  ALARM K { COUNTER = C; ACTION = ACTIVATETASK { TASK = B; }; AUTOSTART = FALSE; };
  COUNTER C { MINCYCLE = 1; MAXALLOWEDVALUE = 4294967295; TICKSPERBASE = 20; };
  EVENT E { MASK = AUTO; }; EVENT F { MASK = 0xffffffff; };
  RESOURCE R { RESOURCEPROPERTY = INTERNAL; }; RESOURCE S { RESOURCEPROPERTY = STANDARD; };
  ISR I { CATEGORY = 2; }; ISR J { PRIORITY = 31; CATEGORY = 2; };
  TASK B_2 { AUTOSTART = TRUE { APPMODE = N; APPMODE = M; }; ACTIVATION = 1;
    SCHEDULE = FULL; PRIORITY = 0; };
  TASK A { EVENT = F; EVENT = E; RESOURCE = S; RESOURCE = R; ACTIVATION = 15; PRIORITY = 31;
    SCHEDULE = NON {}; AUTOSTART = FALSE; };
  APPMODE M; APPMODE N {};
  OS o { USEPARAMETERACCESS = FALSE; POSTTASKHOOK = TRUE; PRETASKHOOK = FALSE;
    USERESSCHEDULER = FALSE; SHUTDOWNHOOK = FALSE; ERRORHOOK = TRUE; STARTUPHOOK = FALSE;
    STATUS = EXTENDED; USEGETSERVICEID = FALSE; };
};
";

const ALL_KINDS_PRINTED: &str = "OIL_VERSION = \"2.5\";
CPU c1 {
  OS o {
    STATUS = EXTENDED;
    STARTUPHOOK = FALSE;
    ERRORHOOK = TRUE;
    SHUTDOWNHOOK = FALSE;
    PRETASKHOOK = FALSE;
    POSTTASKHOOK = TRUE;
    USERESSCHEDULER = FALSE;
  };
  APPMODE M {
  };
  APPMODE N {
  };
  TASK B_2 {
    PRIORITY = 0;
    SCHEDULE = FULL;
    ACTIVATION = 1;
    AUTOSTART = TRUE { APPMODE = N; APPMODE = M; };
  };
  TASK A {
    PRIORITY = 31;
    SCHEDULE = NON;
    ACTIVATION = 15;
    AUTOSTART = FALSE;
    RESOURCE = S;
    RESOURCE = R;
    EVENT = F;
    EVENT = E;
  };
  ISR I {
    CATEGORY = 2;
    PRIORITY = 0;
  };
  ISR J {
    CATEGORY = 2;
    PRIORITY = 31;
  };
  RESOURCE R {
    RESOURCEPROPERTY = INTERNAL;
  };
  RESOURCE S {
    RESOURCEPROPERTY = STANDARD;
  };
  EVENT E {
    MASK = AUTO;
  };
  EVENT F {
    MASK = 4294967295;
  };
  COUNTER C {
    MAXALLOWEDVALUE = 4294967295;
    TICKSPERBASE = 20;
    MINCYCLE = 1;
  };
  ALARM L {
    COUNTER = C;
    ACTION = SETEVENT { TASK = A; EVENT = E; };
    AUTOSTART = TRUE { ALARMTIME = 47; CYCLETIME = 3; APPMODE = N; APPMODE = M; };
  };
  ALARM K {
    COUNTER = C;
    ACTION = ACTIVATETASK { TASK = B; };
    AUTOSTART = FALSE;
  };
};
";

/// A CPU of any name: it is no object.
const CPU_INVALID: &str =
    "OIL_VERSION = \"2.5\"; CPU INVALID { APPMODE TASK; OS o { STATUS = EXTENDED;
  STARTUPHOOK = TRUE; ERRORHOOK = FALSE; SHUTDOWNHOOK = TRUE; PRETASKHOOK = TRUE;
  POSTTASKHOOK = FALSE; }; };";

const CPU_INVALID_PRINTED: &str = "OIL_VERSION = \"2.5\";
CPU INVALID {
  OS o {
    STATUS = EXTENDED;
    STARTUPHOOK = TRUE;
    ERRORHOOK = FALSE;
    SHUTDOWNHOOK = TRUE;
    PRETASKHOOK = TRUE;
    POSTTASKHOOK = FALSE;
    USERESSCHEDULER = TRUE;
  };
  APPMODE TASK {
  };
};
";

/// The text of the file that a text means.
pub fn reprinted(alloc: Global, text: &str) -> Result<String, Fail> {
    let file = read_oil(alloc, text.as_bytes())?;
    Ok(print_oil(alloc, &file)?)
}

#[test]
fn files_are_printed(rt: HostRuntime) -> Result<(), Fail> {
    for (text, printed) in &[
        (ONE_TASK, ONE_TASK_PRINTED),
        (ALL_KINDS, ALL_KINDS_PRINTED),
        (ALL_KINDS_PRINTED, ALL_KINDS_PRINTED),
        (CPU_INVALID, CPU_INVALID_PRINTED),
    ] {
        let got = reprinted(rt.alloc(), text)?;
        assert_eq!(rt; got.as_str(), *printed);
    }
    Ok(())
}
