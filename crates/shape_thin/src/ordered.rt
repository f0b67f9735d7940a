//! Ordered thinning: the nearest simple point to the background is deleted or marked, again and again.
//! Which point is next, and what waits after it, belongs to `Thinner`; what an end is belongs to the rule.
ghost use Rattle.std.specs.Prelude.{◌≡◌, ◌+◌, ◌*◌, ◌≤◌, length, IfOk};
ghost use Rattle.shape_terms.specs.Pictures.{object_points};
ghost use Rattle.shape_terms.specs.Distances.{AreDistances};
ghost use Rattle.shape_thin.specs.Runs.{IsRunOf};
ghost use Rattle.shape_thin.specs.Laws.{KeepsParts};

use crate::events::{Done, Events};
use crate::thinner::Thinner;
use crate::thinning::Thinning;
use shape_cells::Cells;
use shape_grid::Grid;
use shape_rules::{EndRule, ask, begin};
use shape_space::{NoMemory, Steps};
use shape_topo::SimpleMask;
use std::alloc::Global;
use std::sync::ledger::Ledger;

/// The thinning of a picture by a rule, which begins anew, where the squared distances of its object points are known.
///
/// Each object point is tested once, when its turn comes by its key, and after a deletion each near neighbour whose turn has come:
/// a step each. The rule is asked once for each event, and is in the last state afterwards.
pub fn thin<P: SimpleMask, L: Ledger>(
    alloc: Global,
    grid: &Grid<P>,
    distances: Cells<u32>,
    rule: &mut Box<dyn EndRule>,
    steps: &mut Steps<L>,
) -> Result<Thinning<P>, NoMemory>
    requires { AreDistances grid.now distances.values }
    ensures thinning { IfOk result (IsRunOf (means rule.old) grid.now (state rule.new)) }
    ensures kept { IfOk result (λ t. KeepsParts grid.now t.left) }
    ensures few { IfOk result (λ t. steps.new ≤ steps.old
        + length (object_points grid.now) + P.NEAR_COUNT * length t.events) }
    ensures same_rule { means rule.new ≡ means rule.old }
{
    begin(rule);
    let mut thinner = Thinner::begin(alloc, grid, distances, steps)?;
    let mut events = Events::new(alloc, grid.count())?;
    while let Some(next) = thinner.next() {
        let tips = ask(rule, &next.facts);
        let place = next.place;
        thinner.settle(&next, tips, steps);
        events.push(Done { place, tips })?;
    }
    Ok(Thinning::of(thinner.into_left(), events))
}
