//! What is told of figures.

ghost use Rattle.std.specs.Prelude.{ℕ, ◌≡◌, List};
ghost use Rattle.osek_base.specs.System.{System};
ghost use Rattle.arrival_rules.specs.declared.rule.ArrivalRule.{ArrivalRule};
ghost use Rattle.search_witnesses.specs.Findings.{AreFindings};
ghost use Rattle.cli_tables.specs.Cells.{cell_of};
ghost use Rattle.cli_tables.specs.Promises.{Promises};
ghost use Rattle.cli_tables.specs.Texts.{service_standing};

use crate::cells::{Cell, reached_or};
use search_witnesses::Findings;
use view_measures::Figure;

/// What is told of a figure.
fn told_cell(found: &Findings, figure: Figure) -> Cell
    ensures { result ≡ cell_of found.now figure }
{
    if found.is_endless(figure) {
        return Cell::Unbounded;
    }
    if !found.is_below(figure) {
        return Cell::Above;
    }
    Cell::below(
        figure.measure.sort(),
        found.bounds.peaks.told(figure),
        found.is_reached(figure),
    )
}

/// What is told of a figure. Where the findings are those of a system, what it promises is so.
pub fn cell(found: &Findings, figure: Figure) -> Cell
    ensures exact { result ≡ cell_of found.now figure }
    ensures promises { (S : System) (mode : ℕ) (rules : List ArrivalRule)
        → AreFindings S mode rules found.now
        → Promises S mode rules found.now.bounds figure result }
{
    told_cell(found, figure)
}

/// What is promised of the service of a number: `reached` where a run is known, else `bound`.
pub fn service_standing(found: &Findings, number: usize) -> &'static str
    ensures { result.now ≡ service_standing found.now number }
{
    reached_or(found.is_failing(number), "bound")
}
