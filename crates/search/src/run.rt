// The search by cells: its start, its rounds and what it answers (RULES "Rounds", "Figures").
ghost use Rattle.std.specs.Prelude.{◌≡◌, ◌∷◌, ◌-◌, ◌*◌, ◌≤◌, length};
ghost use Rattle.query.specs.Search as Search;
ghost use Rattle.query.specs.Range.{cost_limit, rounds_limit, RectInRange};
ghost use Rattle.query.specs.Figures as Figures;
ghost use Rattle.deck.specs.Values.{rect_of};
ghost use Rattle.reach.specs.Held.{pricing_of_objects};
ghost use Rattle.pricing.specs.ObjectFigures.{before_of, Figure};
ghost use Rattle.cells.specs.Held.{query_cell};
ghost use Rattle.priced_place.specs.ObjectProblem.{priced_of};
ghost use Rattle.priced_place.specs.Prepared.{problem_of, Prepared};
ghost use Rattle.search.specs.LiveCells.{Addable, with_live};
ghost use Rattle.search.specs.Running.{search_of, Takeable, Holds};
ghost use Rattle.search.specs.Answer.{Answerable, found_of, Searched};

use crate::halves::{bounded, halve, improve, priced_key};
use cells::{Cell, Key, LiveCells};
use deck::Place;
use prepare::Problem;
use priced_place::{PricedPlace, priced};

// What a search holds beside its live cells while it runs: the best place so far, and the cuts made.
#[derive(Clone, Copy)]
struct Running {
    best: PricedPlace,
    cuts: u64,
}

/// What a search has found when it ends (RULES "Figures").
#[derive(Clone, Copy)]
pub struct Found {
    /// No cell is live: the report's state is `done`, and else `stopped`.
    pub done: bool,
    /// The best place; its cost is the figure `high`.
    pub best: PricedPlace,
    /// The figure `low`, which is never negative.
    pub low: i64,
    /// The cuts made, which are the rounds of the report.
    pub cuts: u64,
}

// Whether a cell is live: it comes before the best place and can be cut.
fn is_live(problem: &Problem, cell: Cell, best: PricedPlace) -> bool
    requires { RectInRange (rect_of cell.rect) × (best.cost ≤ cost_limit) }
    ensures { result ≡ Search.is_live (problem_of problem.now).rules.grid (priced_of best) (query_cell cell) }
{
    let vertical = problem.vertical.as_slice();
    let horizontal = problem.horizontal.as_slice();
    Key::of_cell(cell).precedes(priced_key(best)) && cuts::can_cut(vertical, horizontal, cell.rect)
}

// One more among the live cells, if it is live.
fn add(problem: &Problem, live: &mut LiveCells, cell: Cell, best: PricedPlace)
    requires { Addable live.old cell best }
    ensures { live.new ≡ with_live (problem_of problem.now).rules.grid (priced_of best) cell live.old }
{
    if is_live(problem, cell, best) {
        live.insert(cell);
    }
}

// The best of the area's corners.
fn best_corner(problem: &Problem) -> PricedPlace
    requires { RectInRange (rect_of problem.now.area) }
    ensures start { priced_of result ≡ Search.start_best (problem_of problem.now) }
    ensures limit { result.cost ≤ cost_limit }
{
    let objects = &problem.objects;
    let r = problem.area;
    let mut best = priced(objects, r.low());
    best = improve(best, priced(objects, Place { x: r.xlo, y: r.yhi }));
    best = improve(best, priced(objects, Place { x: r.xhi, y: r.ylo }));
    improve(best, priced(objects, r.high()))
}

// The start of a search.
fn start(problem: &Problem, live: &mut LiveCells) -> Running
    requires { Prepared problem.now }
    ensures { Holds (Search.start (problem_of problem.now)) rounds_limit live.new result }
{
    live.clear();
    let best = best_corner(problem);
    let cell = bounded(&problem.objects, problem.area);
    add(problem, live, cell, best);
    Running { best, cuts: 0 }
}

// A round: the cell that was the first of the live ones is cut, the best place may change, and dead cells are dropped.
fn round(
    problem: &Problem,
    before: u64,
    live: &mut LiveCells,
    cell: Cell,
    state: Running,
) -> Running
    requires { Figure (before_of (pricing_of_objects problem.now.objects)) cost_limit before
        × Takeable (problem_of problem.now).rules.grid cell live.old state }
    ensures { Holds (Search.round (problem_of problem.now).rules (search_of (cell ∷ live.old.cells) state))
        (live.old.free - 2) live.new result }
{
    let halves = halve(problem, before, cell.rect);
    let best = improve(improve(state.best, halves.low), halves.high);
    live.trim(priced_key(best));
    add(problem, live, halves.second, best);
    add(problem, live, halves.first, best);
    Running {
        best,
        cuts: state.cuts + 1,
    }
}

// A search: its start, and its rounds while a cell is live, at most so many.
fn run_of(problem: &Problem, before: u64, rounds: u64, live: &mut LiveCells) -> Running
    requires { Prepared problem.now
        × Figure (before_of (pricing_of_objects problem.now.objects)) cost_limit before × (rounds ≤ rounds_limit) }
    ensures { Holds (Search.run (problem_of problem.now) rounds) 0 live.new result }
{
    let mut state = start(problem, live);
    for _round in 0..rounds {
        let Some(cell) = live.pop_first() else {
            return state;
        };
        state = round(problem, before, live, cell, state);
    }
    state
}

// The least of the best cost and the bounds of the live cells, which are in order.
fn low_of(live: &LiveCells, state: Running) -> i64
    requires { Answerable live.now state }
    ensures { result ≡ Figures.low (search_of live.now.cells state) }
{
    let best = state.best;
    let high = best.cost as i64;
    match live.first() {
        Some(first) => high.min(first.bound),
        None => high,
    }
}

// What a search answers at its end.
fn answer(live: &LiveCells, state: Running) -> Found
    requires { Answerable live.now state }
    ensures { result ≡ found_of (search_of live.now.cells state) }
{
    Found {
        done: live.is_empty(),
        best: state.best,
        low: low_of(live, state),
        cuts: state.cuts,
    }
}

/// Searches the prepared problem of a deck for at most `rounds` rounds, which are 1,000 or fewer (RULES "Rounds"), and gives what it has
/// found (RULES "Figures"). `before` is what the objects pay without a new post (RULES "Cost").
// Not inlined, so that the live cells are on the stack only while it runs.
#[inline(never)]
pub fn search(problem: &Problem, before: u64, rounds: u64) -> Found
    requires { Prepared problem.now
        × Figure (before_of (pricing_of_objects problem.now.objects)) cost_limit before × (rounds ≤ rounds_limit) }
    ensures { result ≡ found_of (Search.run (problem_of problem.now) rounds) }
{
    let mut live = LiveCells::new();
    let state = run_of(problem, before, rounds, &mut live);
    answer(&live, state)
}

/// Searches as `search` does, where `before` is what the objects pay without a new post, and gives the same (RULES "Cost", "Rounds",
/// "Figures"). The cell space `cells` then holds the cells that are live at the end, for which it must have room: five numbers each, in
/// their order, and 0 behind them to its end (RULES "Cell space").
// Not inlined, as `search`.
#[inline(never)]
pub fn search_into(problem: &Problem, before: u64, rounds: u64, cells: &mut [i64]) -> Found
    requires { Prepared problem.now
        × Figure (before_of (pricing_of_objects problem.now.objects)) cost_limit before
        × (rounds ≤ rounds_limit) × (5 * length (Search.run (problem_of problem.now) rounds).live ≤ length cells.old) }
    ensures { Searched (problem_of problem.now) rounds (length cells.old) cells.new result }
{
    let mut live = LiveCells::new();
    let state = run_of(problem, before, rounds, &mut live);
    live.write_out(cells);
    answer(&live, state)
}
