// The better of two places, cells with their bounds, and what a cut makes of a cell (RULES "Bound", "Cuts", "Live cells").
ghost use Rattle.std.specs.Prelude.{◌≡◌, ◌≤◌};
ghost use Rattle.query.specs.Cut.{cut_line};
ghost use Rattle.query.specs.Order.{priced_key};
ghost use Rattle.query.specs.Range.{cost_limit, RectInRange};
ghost use Rattle.deck.specs.Values.{rect_of};
ghost use Rattle.reach.specs.Columns.{Ranged};
ghost use Rattle.reach.specs.Held.{pricing_of_objects};
ghost use Rattle.pricing.specs.ObjectFigures.{before_of, Figure};
ghost use Rattle.cuts.specs.CutRecord.{cut_record};
ghost use Rattle.cells.specs.Held.{query_key};
ghost use Rattle.priced_place.specs.ObjectProblem.{priced_of};
ghost use Rattle.priced_place.specs.Prepared.{problem_of};
ghost use Rattle.search.specs.BestPlace.{improved};
ghost use Rattle.search.specs.CutCell.{cell_for, parts_of, halves_of, Cutting};

use cells::{Cell, Key};
use cuts::Cut;
use deck::{Axis, Rect};
use prepare::Problem;
use priced_place::PricedPlace;
use reach::Objects;

// What a cut makes of a cell: the two new corners with their costs, `low` at the end of the cut line on the cell's low edge and `high` on
// its high edge, and the two parts, `first` up to the line and `second` from it on.
#[derive(Clone, Copy)]
pub(crate) struct Halves {
    pub low: PricedPlace,
    pub high: PricedPlace,
    pub first: Cell,
    pub second: Cell,
}

// The key of a place: its cost, and between equal costs the place.
pub(crate) fn priced_key(priced: PricedPlace) -> Key
    requires { priced.cost ≤ cost_limit }
    ensures { query_key result ≡ priced_key (priced_of priced) }
{
    Key {
        figure: priced.cost as i64,
        at: priced.at,
    }
}

// The better of two places.
pub(crate) fn improve(best: PricedPlace, other: PricedPlace) -> PricedPlace
    requires { (best.cost ≤ cost_limit) × (other.cost ≤ cost_limit) }
    ensures better { result ≡ improved best other }
    ensures limit { result.cost ≤ cost_limit }
{
    if priced_key(other).precedes(priced_key(best)) {
        return other;
    }
    best
}

// The cell of a rectangle, with its bound.
pub(crate) fn bounded(objects: &Objects, rect: Rect) -> Cell
    requires { Ranged (rect_of rect) }
    ensures { result ≡ cell_for (pricing_of_objects objects.now) (rect_of rect) }
{
    let bound = pricing::bound(objects, rect) as i64;
    Cell { rect, bound }
}

// Where a rectangle is cut, if it can be.
fn cut_of(problem: &Problem, rect: Rect) -> Option<Cut>
    requires { RectInRange (rect_of rect) }
    ensures { result ≡ cut_record (problem_of problem.now).rules.grid (rect_of rect) }
{
    cuts::find_cut(
        problem.vertical.as_slice(),
        problem.horizontal.as_slice(),
        rect,
    )
}

// What the two parts of a cell make: the new corners are the low one of the second and the high one of the first.
// Inlined, as what it calls, so that along each axis what the parts have in common is found once.
#[inline(always)]
fn parts(objects: &Objects, before: u64, first: Rect, second: Rect) -> Halves
    requires { Figure (before_of (pricing_of_objects objects.now)) cost_limit before
        × Ranged (rect_of first) × Ranged (rect_of second) }
    ensures { result ≡ parts_of (pricing_of_objects objects.now) (rect_of first) (rect_of second) }
{
    let figures = pricing::parts(objects, before, first, second);
    Halves {
        low: priced_place::with_cost(second.low(), figures.low_cost),
        high: priced_place::with_cost(first.high(), figures.high_cost),
        first: Cell {
            rect: first,
            bound: figures.first_bound as i64,
        },
        second: Cell {
            rect: second,
            bound: figures.second_bound as i64,
        },
    }
}

// What the cut of a cell makes of its rectangle. `before` is what the objects pay without a new post.
pub(crate) fn halve(problem: &Problem, before: u64, rect: Rect) -> Halves
    requires { Figure (before_of (pricing_of_objects problem.now.objects)) cost_limit before
        × Cutting (problem_of problem.now).rules.grid (rect_of rect) }
    ensures { result
        ≡ halves_of (pricing_of_objects problem.now.objects)
        (cut_line (problem_of problem.now).rules.grid (rect_of rect)) (rect_of rect) }
{
    let objects = &problem.objects;
    let cut = cut_of(problem, rect).unwrap();
    match cut.axis {
        Axis::X => {
            let first = Rect {
                xhi: cut.at,
                ..rect
            };
            let second = Rect {
                xlo: cut.at,
                ..rect
            };
            parts(objects, before, first, second)
        }
        Axis::Y => {
            let first = Rect {
                yhi: cut.at,
                ..rect
            };
            let second = Rect {
                ylo: cut.at,
                ..rect
            };
            parts(objects, before, first, second)
        }
    }
}
