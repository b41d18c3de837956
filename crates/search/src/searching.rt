//! The search: it visits nodes until none is open.

ghost use Rattle.std.specs.Prelude.{◌≡◌, ◌≢◌, ◌<◌, ◌≤◌, length, Any, Some, IfOk, IfNone, IfSome, slice_get};
ghost use Rattle.search.specs.Rules.{StaysNoted};
ghost use Rattle.search.specs.Admitted.{Admits, OthersStay};
ghost use Rattle.search.specs.Visited.{AreVisited, Closes, GoesOn, Visits, closed_by};
ghost use Rattle.search.specs.declared.table.Admitted.TheVariants.{Full};
ghost use Rattle.search.specs.declared.searching.Tried.TheVariants.{Not};
ghost use Rattle.search.specs.Outcomes.{IsOutcome};

use crate::outcome::{Limits, Obstacle, Outcome, Progress};
use crate::steps::Steps;
use crate::table::{Admitted, Table};
use std::alloc::{AllocError, Global};

/// Searches all that can come of the first node, whatever is chosen.
///
/// At `Decided` the nodes that are kept stand for all of it: one stands for the beginning, and for
/// each of them and each choice that may be made in it, one stands for what comes of it, and what
/// is seen there is noted. `Undecided` says why the search stopped, how many nodes are kept, how
/// many of them were still to be visited, and for how many steps from the beginning all that can
/// come was tried, so that what is seen in them is noted. An error is want of memory.
///
/// Nodes are visited in the order in which they were found. What comes of one is dropped where a
/// node covers it, or joined with a node, which is then visited again, or else kept. A node that is
/// joined with what comes of itself is visited again at once.
pub fn search<S: Steps>(alloc: Global, steps: &mut S, limits: Limits) -> Result<Outcome, AllocError>
    ensures setting { S.setting steps.new ≡ S.setting steps.old }
    ensures notes { StaysNoted S.is_noted steps.old steps.new }
    ensures outcome { IfOk result
        (IsOutcome (S.rules (S.setting steps.old)) (S.is_noted steps.new) limits) }
{
    let mut table = Table::new(alloc);
    let Some(first) = steps.first(alloc)? else {
        return Ok(Outcome::Undecided(Obstacle::NoPlace, progress(&table, 0, 0, 0)));
    };
    steps.kept();
    match admit(alloc, steps, &mut table, first, limits.nodes)? {
        Admitted::Full => Ok(Outcome::Undecided(Obstacle::Nodes, progress(&table, 0, 0, 0))),
        _ => explore(alloc, steps, &mut table, limits),
    }
}

/// How far a search has come.
fn progress<N: Drop>(table: &Table<N>, visits: u64, steps: u64, levels: u64) -> Progress
    ensures nodes { result.nodes ≡ length table.now.nodes.items }
    ensures open_nodes { result.open_nodes ≡ length table.now.agenda }
    ensures visits { result.visits ≡ visits }
    ensures levels { result.levels ≡ levels }
{
    Progress {
        nodes: table.len(),
        open_nodes: table.open_len(),
        visits,
        steps,
        levels,
    }
}

/// Visits nodes until none is open.
fn explore<S: Steps>(
    alloc: Global,
    steps: &mut S,
    table: &mut Table<S::Node>,
    limits: Limits,
) -> Result<Outcome, AllocError>
    requires first { Any (S.rules (S.setting steps.old)).is_first table.old.nodes.items }
    requires visited { AreVisited (S.rules (S.setting steps.old)) (S.is_noted steps.old)
        table.old.nodes.items table.old.agenda }
    ensures setting { S.setting steps.new ≡ S.setting steps.old }
    ensures notes { StaysNoted S.is_noted steps.old steps.new }
    ensures outcome { IfOk result
        (IsOutcome (S.rules (S.setting steps.old)) (S.is_noted steps.new) limits) }
{
    steps.kept();
    let mut made = 0u64;
    let mut level = Level {
        done: 0,
        left: table.open_len(),
    };
    for visits in 0..limits.visits {
        let Some(number) = table.first_open() else {
            return Ok(Outcome::Decided(progress(table, visits, made, level.done)));
        };
        let visited = visit(alloc, steps, table, number, limits.nodes)?;
        made = made.saturating_add(visited.steps);
        if let Some(obstacle) = visited.obstacle {
            let progress = progress(table, visits, made, level.done);
            return Ok(Outcome::Undecided(obstacle, progress));
        }
        level = level.behind(usize::from(visited.is_done), table.open_len());
        steps.watch(progress(table, visits + 1, made, level.done));
    }
    let progress = progress(table, limits.visits, made, level.done);
    if progress.open_nodes == 0 {
        return Ok(Outcome::Decided(progress));
    }
    Ok(Outcome::Undecided(Obstacle::Visits, progress))
}

/// How far a search has come, level by level. A level is what was open when the one before was
/// done.
#[derive(Clone, Copy)]
struct Level {
    /// How many levels were done.
    done: u64,
    /// How many of the nodes that have been open for longest belong to the one that is under way.
    left: usize,
}

impl Level {
    ghost use Rattle.std.specs.Prelude.{◌≡◌, ◌+◌, ◌-◌, ◌^◌, ◌<◌, ◌≤◌};

    /// Behind a visit that closed so many nodes, where so many are open now.
    fn behind(self, closed: usize, opened: usize) -> Self
        requires { self.done < 2 ^ 64 - 1 }
        ensures going { closed < self.left →
            (result.done ≡ self.done) × (result.left ≡ self.left - closed) }
        ensures done { self.left ≤ closed →
            (result.done ≡ self.done + 1) × (result.left ≡ opened) }
    {
        if closed < self.left {
            return Level {
                done: self.done,
                left: self.left - closed,
            };
        }
        Level {
            done: self.done + 1,
            left: opened,
        }
    }
}

/// How a visit went.
#[derive(Drop)]
struct Visited {
    /// How many choices were tried.
    steps: u64,
    /// Whether each was that may be made. If not, the node is to be visited again.
    is_done: bool,
    /// Why the search stops, if it does.
    obstacle: Option<Obstacle>,
}

/// Visits the node that has been open for longest, and closes it if that is done.
fn visit<S: Steps>(
    alloc: Global,
    steps: &mut S,
    table: &mut Table<S::Node>,
    number: usize,
    limit: usize,
) -> Result<Visited, AllocError>
    requires inside { number < length table.old.nodes.items }
    requires first { slice_get table.old.agenda 0 ≡ Some number }
    requires visited { AreVisited (S.rules (S.setting steps.old)) (S.is_noted steps.old)
        table.old.nodes.items table.old.agenda }
    ensures setting { S.setting steps.new ≡ S.setting steps.old }
    ensures notes { StaysNoted S.is_noted steps.old steps.new }
    ensures closes { IfOk result (λ visited. IfNone visited.obstacle
        (Closes (S.rules (S.setting steps.old)) (S.is_noted steps.new) table.old.nodes.items
        table.old.agenda table.new.nodes.items table.new.agenda (closed_by visited.is_done))) }
    ensures full { IfOk result (λ visited.
        visited.obstacle ≡ Some Obstacle.Nodes → limit ≤ length table.new.nodes.items) }
    ensures going { IfOk result (λ visited. visited.obstacle ≢ Some Obstacle.Visits) }
{
    let visited = try_choices(alloc, steps, table, number, limit)?;
    if !visited.is_done {
        return Ok(visited);
    }
    table.close_first();
    table.settle(steps, number);
    Ok(visited)
}

/// Tries the choices that may be made in the node of a number, until it is joined with what comes
/// of it; then the others wait.
fn try_choices<S: Steps>(
    alloc: Global,
    steps: &mut S,
    table: &mut Table<S::Node>,
    number: usize,
    limit: usize,
) -> Result<Visited, AllocError>
    requires inside { number < length table.old.nodes.items }
    requires visited { AreVisited (S.rules (S.setting steps.old)) (S.is_noted steps.old)
        table.old.nodes.items table.old.agenda }
    ensures setting { S.setting steps.new ≡ S.setting steps.old }
    ensures notes { StaysNoted S.is_noted steps.old steps.new }
    ensures visits { IfOk result (λ visited. IfNone visited.obstacle
        (Visits (S.rules (S.setting steps.old)) (S.is_noted steps.new) table.old.nodes.items
        table.old.agenda table.new.nodes.items table.new.agenda number visited.is_done)) }
    ensures full { IfOk result (λ visited.
        visited.obstacle ≡ Some Obstacle.Nodes → limit ≤ length table.new.nodes.items) }
    ensures going { IfOk result (λ visited. visited.obstacle ≢ Some Obstacle.Visits) }
{
    steps.kept();
    let mut made = 0u64;
    let mut from = 0;
    'choices: while let Some(choice) = steps.choice_from(table.node(number), from) {
        made = made.saturating_add(1);
        match try_choice(alloc, steps, table, number, choice, limit)? {
            Tried::Apart => from = choice + 1,
            Tried::Before => from = choice + 1,
            Tried::Itself => {
                return Ok(Visited {
                    steps: made,
                    is_done: false,
                    obstacle: None,
                });
            }
            Tried::Not(obstacle) => {
                return Ok(Visited {
                    steps: made,
                    is_done: false,
                    obstacle: Some(obstacle),
                });
            }
        }
    }
    Ok(Visited {
        steps: made,
        is_done: true,
        obstacle: None,
    })
}

/// What became of a choice.
#[derive(Clone, Copy)]
enum Tried {
    /// What comes of the node is covered by another one.
    Apart,
    /// A lower choice told it.
    Before,
    /// It was joined with the node itself.
    Itself,
    /// The search stops.
    Not(Obstacle),
}

/// Tries a choice in the node of a number, where it doesn't repeat a lower one.
fn try_choice<S: Steps>(
    alloc: Global,
    steps: &mut S,
    table: &mut Table<S::Node>,
    number: usize,
    choice: u64,
    limit: usize,
) -> Result<Tried, AllocError>
    requires inside { number < length table.old.nodes.items }
    requires may { IfSome (slice_get table.old.nodes.items number)
        (λ x. (S.rules (S.setting steps.old)).may x choice) }
    ensures setting { S.setting steps.new ≡ S.setting steps.old }
    ensures notes { StaysNoted S.is_noted steps.old steps.new }
    ensures tries { IfOk result (GoesOn (S.rules (S.setting steps.old)) (S.is_noted steps.new)
        table.old.nodes.items table.old.agenda table.new.nodes.items table.new.agenda
        number choice) }
    ensures full { IfOk result (λ tried.
        tried ≡ Not Obstacle.Nodes → limit ≤ length table.new.nodes.items) }
    ensures going { IfOk result (λ tried. tried ≢ Not Obstacle.Visits) }
{
    if let Some(_lower) = steps.repeats(alloc, table.node(number), choice)? {
        return Ok(Tried::Before);
    }
    let Some(next) = steps.next(alloc, table.node(number), choice)? else {
        return Ok(Tried::Not(Obstacle::NoPlace));
    };
    match admit(alloc, steps, table, next, limit)? {
        Admitted::Full => Ok(Tried::Not(Obstacle::Nodes)),
        Admitted::At(at) if at == number => Ok(Tried::Itself),
        _ => Ok(Tried::Apart),
    }
}

/// Sees to it that some node covers another, unless there are as many nodes as a limit allows. A
/// node that is open since is given what its visit needs.
fn admit<S: Steps>(
    alloc: Global,
    steps: &mut S,
    table: &mut Table<S::Node>,
    node: S::Node,
    limit: usize,
) -> Result<Admitted, AllocError>
    ensures setting { S.setting steps.new ≡ S.setting steps.old }
    ensures notes { StaysNoted S.is_noted steps.old steps.new }
    ensures admits { IfOk result (λ done. done ≢ Full → Admits (S.rules (S.setting steps.old))
        table.old.nodes.items table.old.agenda table.new.nodes.items table.new.agenda node) }
    ensures others { IfOk result (OthersStay table.old.nodes.items table.new.nodes.items) }
    ensures full { IfOk result (λ done. done ≡ Full → limit ≤ length table.new.nodes.items) }
{
    let hash = steps.hash(&node);
    if table.covers(steps, hash, &node) {
        steps.take_back(node);
        return Ok(Admitted::Covered);
    }
    match table.admit(alloc, steps, hash, node, limit)? {
        Admitted::At(number) => {
            table.keep(alloc, steps, number)?;
            Ok(Admitted::At(number))
        }
        other => Ok(other),
    }
}
