//! Labels are read from bytes. What is read is compared with the bytes afterwards, so no clause is
//! needed here.

use osek_base::{MAX_TASKS, TaskId};
use search_keys::{read_count, read_number, read_optional};
use search_labels::Labels;
use std::alloc::AllocError;

/// A number of 32 bits. What is greater was never written.
fn short(number: u64) -> u32 {
    u32::try_from(number).unwrap_or(u32::MAX)
}

/// No list of labels is longer.
const MOST: u64 = 256;

/// How many things follow. The bytes that are left don't bound them, since zeros at the end don't
/// stand there.
fn count_in(bytes: &[u8]) -> (usize, &[u8]) {
    let (count, rest) = read_count(bytes);
    (count.min(MOST) as usize, rest)
}

fn read_debts<'b>(labels: &mut Labels, bytes: &'b [u8]) -> Result<&'b [u8], AllocError> {
    let (count, mut rest) = count_in(bytes);
    for _rule in 0..count {
        let (debt, behind) = read_number(rest);
        labels.push_debt(short(debt))?;
        rest = behind;
    }
    Ok(rest)
}

/// Reads the ages of one task's jobs, of which there are several.
fn read_many<'b>(labels: &mut Labels, bytes: &'b [u8]) -> Result<&'b [u8], AllocError> {
    let (count, mut rest) = count_in(bytes);
    for _job in 0..count {
        let (age, behind) = read_number(rest);
        labels.push_age(short(age))?;
        rest = behind;
    }
    Ok(rest)
}

/// Reads the ages of one task's jobs. Of one job 2 was added to the age.
fn read_task<'b>(labels: &mut Labels, bytes: &'b [u8]) -> Result<&'b [u8], AllocError> {
    let (told, mut rest) = read_count(bytes);
    if told == 1 {
        rest = read_many(labels, rest)?;
    }
    if told > 1 {
        labels.push_age(short(told - 2))?;
    }
    labels.end_task()?;
    Ok(rest)
}

fn read_ages<'b>(labels: &mut Labels, bytes: &'b [u8]) -> Result<&'b [u8], AllocError> {
    let (count, mut rest) = count_in(bytes);
    for _task in 0..count {
        rest = read_task(labels, rest)?;
    }
    Ok(rest)
}

const _: () = prove!(MAX_TASKS <= u8::MAX as usize);

/// The task of a number. Those that were written are below [`MAX_TASKS`].
fn task_of(number: u64) -> TaskId {
    TaskId::new((number % MAX_TASKS as u64) as u8)
}

fn read_holds<'b>(labels: &mut Labels, bytes: &'b [u8]) -> Result<&'b [u8], AllocError> {
    let (count, mut rest) = count_in(bytes);
    for _resource in 0..count {
        let (holder, behind) = read_optional(rest);
        let (held, behind) = read_number(behind);
        labels.push_hold(holder.map(task_of), short(held))?;
        rest = behind;
    }
    Ok(rest)
}

/// How many things follow, of which there are most likely as many as of others.
fn count_beside(others: usize, bytes: &[u8]) -> (usize, &[u8]) {
    let (is_told, rest) = read_count(bytes);
    if is_told == 0 {
        return (others, rest);
    }
    count_in(rest)
}

fn read_pending<'b>(labels: &mut Labels, bytes: &'b [u8]) -> Result<&'b [u8], AllocError> {
    let (count, mut rest) = count_beside(labels.debts().len(), bytes);
    for _routine in 0..count {
        let (age, behind) = read_optional(rest);
        labels.push_pending(age.map(short))?;
        rest = behind;
    }
    Ok(rest)
}

fn read_blocked(labels: &mut Labels, bytes: &[u8]) -> Result<(), AllocError> {
    let (count, mut rest) = count_beside(labels.task_count(), bytes);
    for _task in 0..count {
        let (ticks, behind) = read_number(rest);
        labels.push_blocked(short(ticks))?;
        rest = behind;
    }
    Ok(())
}

/// Reads bytes into labels, in place of what they were.
pub(crate) fn read_into(labels: &mut Labels, bytes: &[u8]) -> Result<(), AllocError> {
    labels.clear();
    let rest = read_debts(labels, bytes)?;
    let rest = read_ages(labels, rest)?;
    let rest = read_holds(labels, rest)?;
    let rest = read_pending(labels, rest)?;
    read_blocked(labels, rest)
}
