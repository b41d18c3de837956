//! The greatest number of each figure, measure by measure, and in each thing by thing.

ghost use Rattle.std.specs.Prelude.{◌≡◌, ◌<◌, length};
ghost use Rattle.law_figures.specs.Labels.{IsAtMost};
ghost use Rattle.view_measures.specs.Measures.{figure};
ghost use Rattle.search_peaks.specs.Peaks.{index_of, number_in};
ghost use Rattle.search_peaks.specs.Raising.{Raises};

use osek_base::{MAX_ALARMS, MAX_ROUTINES, MAX_TASKS};
use seen_ticks::MAX_HELD;
use view_measures::{Figure, Measure};

/// How many things of a kind there are at most.
pub const MAX_THINGS: usize = 64;

const _: () = prove!(MAX_TASKS <= MAX_THINGS);

const _: () = prove!(MAX_ROUTINES <= MAX_THINGS);

const _: () = prove!(MAX_HELD <= MAX_THINGS);

const _: () = prove!(MAX_ALARMS <= MAX_THINGS);

/// How many numbers there are: of twelve measures.
pub const PLACES: usize = 12 * MAX_THINGS;

/// Where the number of a figure stands.
#[tactic(auto, using(crate::proofs::PeakLemmas::place_low))]
#[inline(always)]
fn index_of(figure: Figure) -> usize
    requires { figure.number < MAX_THINGS }
    ensures value { result ≡ index_of figure }
    ensures low { result < PLACES }
{
    figure.measure.place() * MAX_THINGS + figure.number
}

/// Raises the number of a figure to what is shown, and answers whether that is greater.
#[inline(always)]
pub(crate) fn raise(
    numbers: &mut [u32],
    measure: Measure,
    number: usize,
    shown: Option<u32>,
) -> bool
    requires things { number < MAX_THINGS }
    requires places { length numbers.old ≡ PLACES }
    ensures { Raises (λ now. IsAtMost (number_in now (figure measure number)) shown)
        numbers.old numbers.new result }
{
    let index = index_of(Figure { measure, number });
    let Some(shown) = shown else {
        return false;
    };
    if numbers[index] >= shown {
        return false;
    }
    numbers[index] = shown;
    true
}

/// The number of a figure; 0 where there is none.
#[tactic(auto, unfolding(crate::specs::Peaks::number_in))]
pub(crate) fn number_in(numbers: &[u32], figure: Figure) -> u32
    requires { length numbers.now ≡ PLACES }
    ensures { result ≡ number_in numbers.now figure }
{
    if figure.number >= MAX_THINGS {
        return 0;
    }
    numbers[index_of(figure)]
}
