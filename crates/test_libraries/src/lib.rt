//! No code: tests of what the program doesn't show. They use only what is public, so no library
//! is proved twice for its tests.
//!
//! They are on printed OIL, words of instructions, ready lists, runs over each make of these, a
//! machine whose interrupts are chosen as it goes, upper parts by themselves, a search, and needed
//! data worked out by hand.
#![tactic(auto)]

#[cfg(test)]
mod chosen_arrivals;
#[cfg(test)]
mod counting_queues;
#[cfg(test)]
mod instruction_words;
#[cfg(test)]
mod lines;
#[cfg(test)]
mod most_objects;
#[cfg(test)]
mod printed_files;
#[cfg(test)]
mod pump;
#[cfg(test)]
mod queue_runs;
#[cfg(test)]
mod ready_lists;
#[cfg(test)]
mod search_ring;
#[cfg(test)]
mod systems;
#[cfg(test)]
mod three_tasks;
#[cfg(test)]
mod upper_parts;
