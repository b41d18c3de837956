//! The ready queues.

ghost use Rattle.std.specs.Prelude.{ℕ, ◌≡◌, ◌<◌, ◌++◌, [], false, suc, OnOk};
ghost use Rattle.osek_base.specs.declared.limits.TheConstants.{MAX_TASK_PRIORITY};
ghost use Rattle.search_needs.specs.Table.{has};
ghost use Rattle.services.specs.CompactQueues.{tasks_at};
ghost use Rattle.search_keys.specs.Bytes.{each};
ghost use Rattle.search_keys.specs.Key.{level_key, ready_key};
ghost use Rattle.search_states.specs.Parts.{entry_key};

use crate::sets::{next_in, with_number};
use search_keys::push_number;
use services::{CompactQueues, ReadyEntry};
use std::alloc::AllocError;

/// Adds a ready task with its level, if it stands at that one.
#[inline(always)]
#[tactic(auto, using(crate::proofs::Steps::joined))]
fn push_entry(out: &mut Vec<u8>, level: u8, entry: &ReadyEntry) -> Result<(), AllocError>
    requires { level < 255 }
    ensures { OnOk result (out.new.items ≡ out.old.items ++ entry_key level entry.now) }
{
    if entry.level != level {
        return Ok(());
    }
    push_number(out, level as u32 + 1)?;
    push_number(out, entry.task.number() as u32)
}

/// Adds the tasks that are ready at a level, oldest first.
#[inline(always)]
fn push_level(out: &mut Vec<u8>, level: u8, entries: &[ReadyEntry]) -> Result<(), AllocError>
    requires { level < 255 }
    ensures { OnOk result (out.new.items ≡ out.old.items
        ++ level_key level (tasks_at entries.now level)) }
{
    for entry in entries {
        push_entry(out, level, entry)?;
    }
    Ok(())
}

/// The levels below 64 at which a task is ready, as a set.
fn levels_of(entries: &[ReadyEntry]) -> u64
    ensures { (l : ℕ) → l < 64 → has result l ≡ false → tasks_at entries.now l ≡ [] }
{
    let mut levels = 0;
    for entry in entries {
        levels = with_number(levels, entry.level);
    }
    levels
}

/// Adds the tasks that are ready, from the lowest level up.
#[tactic(auto, using(crate::proofs::Steps::none_yet))]
fn push_levels(out: &mut Vec<u8>, entries: &[ReadyEntry]) -> Result<(), AllocError>
    ensures { OnOk result (out.new.items ≡ out.old.items
        ++ each (suc MAX_TASK_PRIORITY) (λ l. level_key l (tasks_at entries.now l))) }
{
    let levels = levels_of(entries);
    let mut from = 0;
    while let Some(level) = next_in(levels, from) {
        push_level(out, level as u8, entries)?;
        from = level + 1;
    }
    Ok(())
}

/// Adds the ready queues, and 0 at their end.
#[tactic(auto, using(crate::proofs::Steps::joined))]
pub fn push_ready(out: &mut Vec<u8>, queues: &CompactQueues) -> Result<(), AllocError>
    ensures { OnOk result (out.new.items ≡ out.old.items
        ++ ready_key (suc MAX_TASK_PRIORITY) (tasks_at queues.now.entries)) }
{
    push_levels(out, queues.entries())?;
    push_number(out, 0)
}
