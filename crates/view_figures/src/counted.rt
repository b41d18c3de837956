//! Figures of things of one kind, and ticks in a row in which the same is seen.

ghost use Rattle.std.specs.Prelude.{ℕ, List, ◌≡◌, ◌<◌, ◌≤◌, ◌+◌, ◌-◌, ◌^◌, length, replicate};
ghost use Rattle.seen_ticks.specs.declared.observation.Observation.{Observation};
ghost use Rattle.view_figures.specs.Counting.{AreCounted, Counts};

use crate::scene::Scene;
use arrayvec::ArrayVec;
use seen_ticks::Observation;

/// Figures of a task, a routine, a resource or an alarm.
pub trait Counted: Default + Drop {
    /// Where nothing was seen.
    ghost unseen: { Self };

    /// What the levels have to tell of the thing of a number.
    ghost IsKnown: { List ℕ → ℕ → Type 0 } = { λ levels k. Unit {0} };

    /// Those of the thing of a number over some observations, newest first, by the static
    /// priorities of all tasks.
    ghost figures: { List ℕ → ℕ → List Observation → Self };

    /// Nothing was seen.
    fn unseen() -> Self
        ensures { result ≡ unseen };

    /// Of how many such things something is seen.
    fn count_in(scene: &Scene) -> usize;

    /// Of ticks in a row in which the same is seen, counts the first and those that can be counted
    /// with it at once, and tells how many these are.
    fn observe_some(&mut self, scene: &Scene, first: u32, count: u32, number: usize) -> u32
        requires some { 0 < count }
        requires ends { first + count ≤ 2 ^ 32 }
        requires known { IsKnown scene.now.levels.now number }
        ensures counted { Counts (figures scene.now.levels.now number) scene.now.observation.now
            first result self.old self.new }
        ensures some { 0 < result }
        ensures few { result ≤ count };
}

/// Figures of so many things.
pub fn unseen<F: Counted, const N: usize>(count: usize) -> ArrayVec<F, N>
    requires { count ≤ N }
    ensures { result.items ≡ replicate count F.unseen }
{
    let mut figures = ArrayVec::new();
    for _made in 0..count {
        figures.push(F::unseen());
    }
    figures
}

// So many ticks of a thing from one on, in which the same is seen.
#[inline(always)]
fn observe_all<F: Counted>(figures: &mut F, scene: &Scene, first: u32, count: u32, number: usize)
    requires some { 0 < count }
    requires ends { first + count ≤ 2 ^ 32 }
    requires known { F.IsKnown scene.now.levels.now number }
    ensures { Counts (F.figures scene.now.levels.now number) scene.now.observation.now
        first count figures.old figures.new }
{
    let passed = figures.observe_some(scene, first, count, number);
    if passed < count {
        observe_rest(
            figures,
            scene.levels,
            scene.observation,
            first,
            count,
            passed,
            number,
        );
    }
}

// Such ticks behind those that could be counted at once.
#[inline(never)]
fn observe_rest<F: Counted>(
    figures: &mut F,
    levels: &[u8],
    observation: &Observation,
    first: u32,
    count: u32,
    passed: u32,
    number: usize,
)
    requires some { passed < count }
    requires ends { first + count ≤ 2 ^ 32 }
    requires known { F.IsKnown levels.now number }
    ensures { Counts (F.figures levels.now number) observation.now (first + passed) (count - passed)
        figures.old figures.new }
{
    let scene = Scene::new(levels, observation);
    observe_rows(figures, &scene, first + passed, count - passed, number);
}

// Such ticks, of which not all can be counted at once.
#[inline(always)]
fn observe_rows<F: Counted>(figures: &mut F, scene: &Scene, first: u32, count: u32, number: usize)
    requires ends { first + count ≤ 2 ^ 32 }
    requires known { F.IsKnown scene.now.levels.now number }
    ensures { Counts (F.figures scene.now.levels.now number) scene.now.observation.now
        first count figures.old figures.new }
{
    let mut passed = 0;
    while passed < count {
        passed += figures.observe_some(scene, first + passed, count - passed, number);
    }
}

/// So many ticks of each thing from one on, in which the same is seen. Whether something is seen of
/// each thing is asked once.
#[inline(always)]
pub fn observe_each<F: Counted>(
    figures: &mut [F],
    levels: &[u8],
    observation: &Observation,
    first: u32,
    count: u32,
)
    requires some { 0 < count }
    requires ends { first + count ≤ 2 ^ 32 }
    requires known { (k : ℕ) → k < length figures.old → F.IsKnown levels.now k }
    ensures { AreCounted (F.figures levels.now) observation.now first count figures.old
        figures.new }
{
    let scene = Scene::new(levels, observation);
    if figures.len() <= F::count_in(&scene) {
        observe_list(figures, &scene, first, count);
    } else {
        observe_longer(figures, levels, observation, first, count);
    }
}

// Such ticks of more things than are seen.
#[inline(never)]
fn observe_longer<F: Counted>(
    figures: &mut [F],
    levels: &[u8],
    observation: &Observation,
    first: u32,
    count: u32,
)
    requires some { 0 < count }
    requires ends { first + count ≤ 2 ^ 32 }
    requires known { (k : ℕ) → k < length figures.old → F.IsKnown levels.now k }
    ensures { AreCounted (F.figures levels.now) observation.now first count figures.old
        figures.new }
{
    observe_list(figures, &Scene::new(levels, observation), first, count);
}

// Such ticks of each thing, one after another.
#[inline(always)]
fn observe_list<F: Counted>(figures: &mut [F], scene: &Scene, first: u32, count: u32)
    requires some { 0 < count }
    requires ends { first + count ≤ 2 ^ 32 }
    requires known { (k : ℕ) → k < length figures.old → F.IsKnown scene.now.levels.now k }
    ensures { AreCounted (F.figures scene.now.levels.now) scene.now.observation.now
        first count figures.old figures.new }
{
    for (number, figures) in figures.iter_mut().enumerate() {
        observe_all(figures, scene, first, count, number);
    }
}
