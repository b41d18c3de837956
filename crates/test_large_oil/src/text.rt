//! Large OIL texts.

use std::alloc::{AllocError, Global};
use std::fmt::Write;

/// What a text has many of.
#[derive(Clone, Copy)]
pub enum Form {
    /// EVENT objects, each of another name.
    Objects,
    /// RESOURCE attributes of one TASK.
    List,
    /// APPMODE attributes in the block of one TASK's AUTOSTART.
    Block,
    /// Comments.
    Comments,
    /// Objects of each kind.
    Kinds,
}

impl Form {
    /// The form of that word.
    pub fn of_word(word: &str) -> Option<Form> {
        match word {
            "objects" => Some(Form::Objects),
            "list" => Some(Form::List),
            "block" => Some(Form::Block),
            "comments" => Some(Form::Comments),
            "kinds" => Some(Form::Kinds),
            _ => None,
        }
    }
}

const HEAD: &str = "OIL_VERSION = \"2.5\";
CPU c {
  OS o { STATUS = EXTENDED; STARTUPHOOK = FALSE; ERRORHOOK = FALSE;
    SHUTDOWNHOOK = FALSE; PRETASKHOOK = FALSE; POSTTASKHOOK = FALSE; };
  APPMODE M;
";

/// Each line has 28 bytes and the digits of its number. So the text of 30,000 objects has 182 bytes
/// of `HEAD`, 840,000 of lines, 10 + 2 * 90 + 3 * 900 + 4 * 9,000 + 5 * 20,000 = 138,890 of digits
/// and 3 of the end: 979,075.
fn objects(text: &mut String, count: u32) -> Result<(), AllocError> {
    for n in 0..count {
        write!(text, "  EVENT E{n} {{ MASK = AUTO; }};\n")?;
    }
    Ok(())
}

fn list(text: &mut String, count: u32) -> Result<(), AllocError> {
    write!(
        text,
        "  TASK A {{ PRIORITY = 1; SCHEDULE = FULL; ACTIVATION = 1; AUTOSTART = FALSE;\n"
    )?;
    for n in 0..count {
        write!(text, "    RESOURCE = R{n};\n")?;
    }
    write!(text, "  }};\n")
}

fn block(text: &mut String, count: u32) -> Result<(), AllocError> {
    write!(
        text,
        "  TASK A {{ PRIORITY = 1; SCHEDULE = FULL; ACTIVATION = 1; AUTOSTART = TRUE {{ APPMODE = M;\n"
    )?;
    for n in 0..count {
        write!(text, "    APPMODE = M{n};\n")?;
    }
    write!(text, "  }}; }};\n")
}

fn comments(text: &mut String, count: u32) -> Result<(), AllocError> {
    for n in 0..count {
        write!(
            text,
            "  /* comment {n}: /* it doesn't nest ** / */ // to the end\n"
        )?;
    }
    Ok(())
}

fn kinds(text: &mut String, count: u32) -> Result<(), AllocError> {
    for n in 0..count {
        write!(
            text,
            "  EVENT E{n} {{ MASK = AUTO; }}; RESOURCE R{n} {{ RESOURCEPROPERTY = STANDARD; }}; APPMODE M{n};
  ISR I{n} {{ CATEGORY = 2; }}; COUNTER C{n} {{ MAXALLOWEDVALUE = 9; TICKSPERBASE = 1; MINCYCLE = 1; }};
  TASK A{n} {{ PRIORITY = 1; SCHEDULE = NON; ACTIVATION = 1; AUTOSTART = TRUE {{ APPMODE = M; APPMODE = M{n}; }};
    RESOURCE = R0; EVENT = E; EVENT = E{n}; }};
  ALARM L{n} {{ COUNTER = C{n}; ACTION = SETEVENT {{ TASK = A{n}; EVENT = E{n}; }};
    AUTOSTART = TRUE {{ ALARMTIME = 1; CYCLETIME = 0; APPMODE = M; }}; }};\n"
        )?;
    }
    Ok(())
}

/// A text of that form, with as many of what it has many of.
pub fn large_text(alloc: Global, form: Form, count: u32) -> Result<String, AllocError> {
    let mut text = String::new(alloc);
    write!(text, "{HEAD}")?;
    match form {
        Form::Objects => objects(&mut text, count)?,
        Form::List => list(&mut text, count)?,
        Form::Block => block(&mut text, count)?,
        Form::Comments => comments(&mut text, count)?,
        Form::Kinds => kinds(&mut text, count)?,
    }
    write!(text, "}};\n")?;
    Ok(text)
}
