//! Makes a large OIL text and reads it, to measure the reader: `test_large_oil FORM COUNT`. It
//! has no contract.
//!
//! The forms are `objects`, `list`, `block`, `comments` and `kinds`. In this folder `rt run --
//! objects 30000` builds it and runs it once; `time out/test_large_oil objects 30000` then
//! measures 1 MB.
#![tactic(auto)]

mod text;

use anyhow::anyhow;
use oil_reader::read_oil;
use std::env;
use text::{Form, large_text};

/// The form and the count of the command line.
fn request(rt: &HostRuntime) -> anyhow::Result<(Form, u32)> {
    let words: Vec<String> = env::args(rt)?.collect(rt.alloc())?;
    if words.len() != 3 {
        return Err(anyhow!("test_large_oil FORM COUNT"));
    }
    let form = Form::of_word(words[1].as_str());
    let Some(form) = form else {
        return Err(anyhow!("no such form"));
    };
    let count = words[2].parse::<u32>()?;
    Ok((form, count))
}

fn main(rt: HostRuntime) -> anyhow::Result<()> {
    let (form, count) = request(&rt)?;
    let text = large_text(rt.alloc(), form, count)?;
    let file = read_oil(rt.alloc(), text.as_bytes())?;
    println!(rt;
        "{} bytes, {} events, {} tasks",
        text.len(),
        file.events().len(),
        file.tasks().len()
    )?;
    Ok(())
}
