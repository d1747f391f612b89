// The cheapest crossing of a deck's lines (RULES "Exhaustive search"). Along one vertical line the cost is a sum of ramps
// (specs/Ramps.antt), so the costs of all its crossings follow from prefix sums, with no pass over the objects for each. Line by line
// `costs_along` writes these costs into an array, and `choose` takes the cheapest. Objects and ramps are at scaled places, lines are not.
#![tactic(auto)]

ghost use Rattle.std.specs.Prelude.{◌≡◌, ◌≤◌, nat_abs, length};
ghost use mathlib.Core.List.{flat_map};
ghost use Rattle.query.specs.Range.{cost_limit, coordinate_limit, stops_limit};
ghost use Rattle.query.specs.Exhaustive.{exhaustive};
ghost use Rattle.lines.specs.LineRecord.{lines_limit};
ghost use Rattle.reach.specs.Held.{count_of_objects, pricing_of_objects};
ghost use Rattle.pricing.specs.ObjectFigures.{before_of, Figure};
ghost use Rattle.priced_place.specs.ObjectProblem.{priced_of};
ghost use Rattle.priced_place.specs.Prepared.{problem_of, Prepared};
ghost use Rattle.exhaustive.specs.Ramps.{LinesInRange, ObjectLines, LinesFound, ObjectSums, ObjectsAdded};
ghost use Rattle.exhaustive.specs.Cheapest.{cheaper_of, first_cheapest, along, costs_along, Chosen};

mod line_numbers;
mod ramp_sums;

use columns::scaled;
use deck::Place;
use limits::{LINES, STOPS};
use line_numbers::{Divisor, ScaledLines};
pub use line_numbers::{NumberedLines, TABLE, number_lines};
use prepare::Problem;
use priced_place::PricedPlace;
use ramp_sums::{ObjectRamps, Ramps, SUMS};
use reach::Objects;

/// For each object, in its row, the number of the first of the horizontal lines that, multiplied by the axis cost of y, is not below it, or
/// the number of lines where all are. The entries of `rows` behind the objects stay as they are.
pub fn number_objects<'a>(objects: &'a Objects, lines: NumberedLines<'a>, rows: &mut [u16; STOPS])
    requires { length rows.old ≡ stops_limit }
    ensures { LinesFound objects.now lines.entry.at.now rows.old rows.new }
{
    let axis = objects.axis();
    let divisor = Divisor::new(axis.b);
    let scaled = ScaledLines {
        plain: lines,
        divisor,
    };
    for i in 0..objects.count() {
        let y = objects.row(i).y as i64;
        rows[i] = scaled.first_from(y) as u16;
    }
}

/// What the costs of crossings follow from.
#[derive(Clone, Copy)]
pub struct Crossings<'a> {
    pub objects: &'a Objects,
    /// The horizontal lines.
    pub lines: NumberedLines<'a>,
    /// For each object the first of these lines that is not below it, as `number_objects` finds it.
    pub rows: &'a [u16; STOPS],
    /// What the objects pay without a new post (RULES "Cost").
    pub before: u64,
    pub ghost found: { ObjectLines objects.now lines.at.now rows.now },
    pub ghost paid: { Figure (before_of (pricing_of_objects objects.now)) cost_limit before },
}

impl<'a> Crossings<'a> {
    /// The crossings of these parts, which may be lent for different times.
    pub fn new(
        objects: &'a Objects,
        lines: NumberedLines<'a>,
        rows: &'a [u16; STOPS],
        before: u64,
    ) -> Crossings<'a>
        requires { ObjectLines objects.now lines.at.now rows.now
            × Figure (before_of (pricing_of_objects objects.now)) cost_limit before }
        ensures objects { result.objects.now ≡ objects.now }
        ensures lines { result.lines.at.now ≡ lines.entry.at.now }
        ensures table { result.lines.table.now ≡ lines.entry.table.now }
        ensures rows { result.rows.now ≡ rows.now }
        ensures before { result.before ≡ before }
    {
        Crossings {
            objects,
            lines,
            rows,
            before,
        }
    }

    // The ramps of all objects along the vertical line at `coordinate`, where there was none.
    fn add_objects(&self, coordinate: i64, ramps: &mut ObjectRamps)
        requires { (nat_abs coordinate ≤ coordinate_limit) × ObjectSums ramps.old 0 }
        ensures { ObjectsAdded (pricing_of_objects self.now.objects.now) (count_of_objects self.now.objects.now)
            self.now.lines.at.now coordinate ramps.new }
    {
        let axis = self.objects.axis();
        let divisor = Divisor::new(axis.b);
        let lines = ScaledLines {
            plain: self.lines,
            divisor,
        };
        let x = scaled(axis.a as i32, coordinate) as i64;
        for i in 0..self.objects.count() {
            ramps.add_object(&lines, x, self.objects.row(i), self.rows[i] as usize);
        }
    }

    /// Writes the cost of each crossing of the vertical line at `coordinate` with the horizontal lines to the front of `costs`, in the
    /// order of the lines. The entries behind them stay as they are.
    pub fn costs_along(&self, coordinate: i64, costs: &mut [u64; LINES])
        requires { (nat_abs coordinate ≤ coordinate_limit) × (length costs.old ≡ lines_limit) }
        ensures { costs.new
            ≡ costs_along (pricing_of_objects self.now.objects.now) self.now.lines.at.now coordinate costs.old }
    {
        let mut ramps = ObjectRamps {
            up: Ramps {
                weights: [0; SUMS],
                starts: [0; SUMS],
            },
            down: Ramps {
                weights: [0; SUMS],
                starts: [0; SUMS],
            },
        };
        self.add_objects(coordinate, &mut ramps);
        let axis = self.objects.axis();
        ramps.sweep(&self.lines, axis.b, self.before, costs);
    }

    // The cheapest of `first` and the crossings of the vertical line at `coordinate`, the first among equals. `costs` then holds the costs
    // of these crossings.
    fn cheapest_on(
        &self,
        coordinate: i64,
        costs: &mut [u64; LINES],
        first: PricedPlace,
    ) -> PricedPlace
        requires { (nat_abs coordinate ≤ coordinate_limit) × (length costs.old ≡ lines_limit) }
        ensures chosen { result
            ≡ first_cheapest (pricing_of_objects self.now.objects.now) first
            (along self.now.lines.at.now coordinate) }
        ensures priced { costs.new
            ≡ costs_along (pricing_of_objects self.now.objects.now) self.now.lines.at.now coordinate costs.old }
    {
        self.costs_along(coordinate, costs);
        choose(&self.lines, coordinate, costs, first)
    }

    // The cheapest of `first` and the crossings of all lines, the first among equals.
    fn cheapest_of(&self, vertical: &[i64], first: PricedPlace) -> PricedPlace
        requires { LinesInRange vertical.now }
        ensures { result
            ≡ first_cheapest (pricing_of_objects self.now.objects.now) first
            (flat_map (along self.now.lines.at.now) vertical.now) }
    {
        let mut costs = [0u64; LINES];
        let mut found = first;
        for v in vertical {
            found = self.cheapest_on(*v, &mut costs, found);
        }
        found
    }
}

// The cheaper of two places, `best` where they cost the same. Field by field: of a whole `PricedPlace` the compiler picks the address and
// copies what is there, at each crossing.
fn cheaper(best: PricedPlace, other: PricedPlace) -> PricedPlace
    ensures { result ≡ cheaper_of best other }
{
    if other.cost < best.cost {
        return PricedPlace {
            at: Place {
                x: other.at.x,
                y: other.at.y,
            },
            cost: other.cost,
        };
    }
    PricedPlace {
        at: Place {
            x: best.at.x,
            y: best.at.y,
        },
        cost: best.cost,
    }
}

// The cheapest of `first` and the crossings of the vertical line at `coordinate`, the first among equals, from their costs. Not inlined, as
// `cheapest`.
#[inline(never)]
fn choose(
    lines: &NumberedLines,
    coordinate: i64,
    costs: &[u64; LINES],
    first: PricedPlace,
) -> PricedPlace
    ensures { Chosen lines.now.at.now coordinate costs.now first result }
{
    let mut found = first;
    for (j, y) in lines.at.iter().enumerate() {
        let at = Place {
            x: coordinate,
            y: *y,
        };
        found = cheaper(found, priced_place::with_cost(at, costs[j]));
    }
    found
}

/// The cheapest crossing of the lines of a deck's problem, the earliest among equals, with its cost (RULES "Exhaustive search"). `before`
/// is what the objects pay without a new post (RULES "Cost").
// Not inlined: within a caller its loops can lie where they take longer (docs/PERFORMANCE.md).
#[inline(never)]
pub fn cheapest(problem: &Problem, before: u64) -> PricedPlace
    requires { Prepared problem.now
        × Figure (before_of (pricing_of_objects problem.now.objects)) cost_limit before }
    ensures { priced_of result ≡ exhaustive (problem_of problem.now) }
{
    let objects = &problem.objects;
    let vertical = problem.vertical.as_slice();
    let horizontal = problem.horizontal.as_slice();
    let mut table = [0u16; TABLE];
    number_lines(horizontal, &mut table);
    let lines = NumberedLines {
        at: horizontal,
        table: &table,
    };
    let mut rows = [0u16; STOPS];
    number_objects(objects, lines, &mut rows);
    let crossings = Crossings::new(objects, lines, &rows, before);
    let corner = Place {
        x: problem.area.xlo,
        y: problem.area.ylo,
    };
    let first = priced_place::priced(objects, corner);
    crossings.cheapest_of(vertical, first)
}
