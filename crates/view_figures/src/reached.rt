//! Numbers of ticks, and when they were reached.

ghost use Rattle.std.specs.Prelude.{◌≡◌, Some};
ghost use Rattle.view_figures.specs.Reaching.{first_tick, worse_of};

/// A number of ticks, and the tick at which it was reached first.
#[derive(Clone, Copy)]
pub struct Reached {
    /// How many ticks.
    pub ticks: u32,
    /// The tick.
    pub at: u32,
}

/// The greatest number so far rises where a new one, if there is one, is greater.
#[inline(always)]
pub fn raise(worst: &mut Option<Reached>, reached: Option<Reached>)
    ensures { worst.new ≡ worse_of worst.old reached }
{
    if let Some(reached) = reached {
        match *worst {
            Some(worst) if worst.ticks >= reached.ticks => {}
            _ => *worst = Some(reached),
        }
    }
}

// The greatest number so far becomes that one.
#[inline(never)]
fn rise(worst: &mut Option<Reached>, ticks: u32, at: u32)
    ensures { worst.new ≡ Some (record { ticks = ticks; at = at }) }
{
    *worst = Some(Reached { ticks, at });
}

/// The greatest number so far rises where a new one is greater, which is rare.
#[inline(always)]
pub fn raise_rarely(worst: &mut Option<Reached>, ticks: u32, at: u32)
    ensures { worst.new ≡ worse_of worst.old (Some (record { ticks = ticks; at = at })) }
{
    match *worst {
        Some(worst) if worst.ticks >= ticks => {}
        _ => rise(worst, ticks, at),
    }
}

/// The greatest number so far and a new one, if there is one: the greater, of equal ones the
/// earlier.
pub fn worse_of(worst: Option<Reached>, reached: Option<Reached>) -> Option<Reached>
    ensures { result ≡ worse_of worst reached }
{
    let mut worse = worst;
    raise(&mut worse, reached);
    worse
}

/// The first tick of something is kept, that may hold in this tick.
#[inline(always)]
pub fn note_first(first: &mut Option<u32>, holds: bool, tick: u32)
    ensures { first.new ≡ first_tick holds tick first.old }
{
    if holds && first.is_none() {
        *first = Some(tick);
    }
}
