//! The largest system that the limits allow, as it is written and as it is printed: of each kind as
//! many objects as may be, all with names of 32 bytes. The texts come from the layouts of the
//! format, and from no printer.

use crate::printed_files::reprinted;
use std::alloc::{AllocError, Global};
use std::fmt::Write;
use std::test::Fail;

/// Writes an object. Its layout has signs for its number and what follows from it: `^` the number,
/// `#` the same with 31 digits, as names have it, `/` half of it, `%` its remainder by 8, `~` how
/// often a task may be activated, `*` each mode, `$` the last one, and `&` each event, of extended
/// tasks alone. Each fourth task is extended; basic ones have 15 activations.
fn write_object(text: &mut String, layout: &str, n: u8) -> Result<(), AllocError> {
    let is_extended = n % 4 == 3;
    for sign in layout.chars() {
        match sign {
            '^' => write!(text, "{n}")?,
            '#' => write!(text, "{n:031}")?,
            '/' => write!(text, "{:031}", n / 2)?,
            '%' => write!(text, "{:031}", n % 8)?,
            '~' => text.push_str(if is_extended { "1" } else { "15" })?,
            '$' => text.push_str("M0000000000000000000000000000007")?,
            '*' => write_each(text, 8, " APPMODE = M", ";")?,
            '&' => write_each(
                text,
                if is_extended { 32 } else { 0 },
                "    EVENT = E",
                ";\n",
            )?,
            other => text.push(other)?,
        }
    }
    Ok(())
}

/// Writes a setting of each name: the text before the number, and that behind it.
fn write_each(text: &mut String, count: u8, before: &str, behind: &str) -> Result<(), AllocError> {
    for n in 0..count {
        write!(text, "{before}{n:031}{behind}")?;
    }
    Ok(())
}

/// Objects of each kind: how many, and the layout of each.
type Layouts = [(u8, &'static str); 7];

const WRITTEN_HEAD: &str = "OIL_VERSION = \"2.5\";
CPU c {
  OS o { STATUS = EXTENDED; STARTUPHOOK = FALSE; ERRORHOOK = FALSE;
    SHUTDOWNHOOK = FALSE; PRETASKHOOK = FALSE; POSTTASKHOOK = FALSE; };
";

/// The system as a person writes it.
const WRITTEN: Layouts = [
    (8, "  APPMODE M# {};\n"),
    (
        64,
        "  TASK T# { PRIORITY = ^; SCHEDULE = FULL; ACTIVATION = ~;
    AUTOSTART = TRUE {* };\n&    RESOURCE = R/; };\n",
    ),
    (16, "  ISR I# { CATEGORY = 2; PRIORITY = 31; };\n"),
    (32, "  RESOURCE R# { RESOURCEPROPERTY = STANDARD; };\n"),
    (32, "  EVENT E# { MASK = AUTO; };\n"),
    (
        8,
        "  COUNTER C# { MAXALLOWEDVALUE = 2147483647; TICKSPERBASE = 4294967295;
    MINCYCLE = 2147483647; };\n",
    ),
    (
        64,
        "  ALARM L# { COUNTER = C%; ACTION = ACTIVATETASK { TASK = T#; };
    AUTOSTART = TRUE { ALARMTIME = 2147483647; CYCLETIME = 2147483647; APPMODE = $; }; };\n",
    ),
];

const PRINTED_HEAD: &str = "OIL_VERSION = \"2.5\";
CPU c {
  OS o {
    STATUS = EXTENDED;
    STARTUPHOOK = FALSE;
    ERRORHOOK = FALSE;
    SHUTDOWNHOOK = FALSE;
    PRETASKHOOK = FALSE;
    POSTTASKHOOK = FALSE;
    USERESSCHEDULER = TRUE;
  };
";

/// The system as it is printed.
const PRINTED: Layouts = [
    (8, "  APPMODE M# {\n  };\n"),
    (
        64,
        "  TASK T# {
    PRIORITY = ^;
    SCHEDULE = FULL;
    ACTIVATION = ~;
    AUTOSTART = TRUE {* };
    RESOURCE = R/;
&  };
",
    ),
    (
        16,
        "  ISR I# {\n    CATEGORY = 2;\n    PRIORITY = 31;\n  };\n",
    ),
    (
        32,
        "  RESOURCE R# {\n    RESOURCEPROPERTY = STANDARD;\n  };\n",
    ),
    (32, "  EVENT E# {\n    MASK = AUTO;\n  };\n"),
    (
        8,
        "  COUNTER C# {
    MAXALLOWEDVALUE = 2147483647;
    TICKSPERBASE = 4294967295;
    MINCYCLE = 2147483647;
  };
",
    ),
    (
        64,
        "  ALARM L# {
    COUNTER = C%;
    ACTION = ACTIVATETASK { TASK = T#; };
    AUTOSTART = TRUE { ALARMTIME = 2147483647; CYCLETIME = 2147483647; APPMODE = $; };
  };
",
    ),
];

/// The text of a system.
fn text_of(alloc: Global, head: &str, layouts: &Layouts) -> Result<String, AllocError> {
    let mut text = String::from_str(alloc, head)?;
    for (count, layout) in layouts {
        for n in 0..*count {
            write_object(&mut text, layout, n)?;
        }
    }
    text.push_str("};\n")?;
    Ok(text)
}

/// A printed file is read again as the same file, so it is printed as it is.
#[test]
fn the_largest_system_is_printed(rt: HostRuntime) -> Result<(), Fail> {
    let written = text_of(rt.alloc(), WRITTEN_HEAD, &WRITTEN)?;
    let printed = text_of(rt.alloc(), PRINTED_HEAD, &PRINTED)?;
    for text in [written.as_str(), printed.as_str()] {
        let got = reprinted(rt.alloc(), text)?;
        assert!(rt; got.as_str() == printed.as_str());
    }
    Ok(())
}
