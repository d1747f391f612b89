// The corner bound of a rectangle, with its load (RULES "Corner bound"). Nothing of the product calls it: tests compare the bound with it.
#![tactic(auto)]

ghost use Rattle.std.specs.Prelude.{◌≡◌, cond, ◌+◌, ◌*◌, ltb, nat_abs};
ghost use Rattle.numbers.specs.Integer.{dist, clamp};
ghost use Rattle.query.specs.CornerBound as Query;
ghost use Rattle.query.specs.Range.{load_limit, cost_limit, travel_limit, PlaceInRange};
ghost use Rattle.deck.specs.Values.{held_axis};
ghost use Rattle.deck.specs.Ranges.{CostsInRange};
ghost use Rattle.deck.specs.Values.{place_of, rect_of};
ghost use Rattle.reach.specs.Columns.{Ranged};
ghost use Rattle.reach.specs.Held.{pricing_of_objects};
ghost use Rattle.pricing.specs.ObjectFigures.{cost_of, Figure};
ghost use Rattle.corner_bound.specs.ObjectCornerBound.{load_of, corner_bound_of, CornerBound};

use deck::{AxisCosts, Place, Rect};
use numbers::half_up;
use reach::{Edges, Objects, Row};

// An object's part of the load of a rectangle: its visits where it reaches it.
fn borne(row: Row, edges: Edges) -> u32
    ensures { result
        ≡ cond (ltb (dist row.x (clamp edges.xlo edges.xhi row.x) + dist row.y (clamp edges.ylo edges.yhi row.y))
        (nat_abs row.near)) (nat_abs row.visits) 0 }
{
    if edges.reached_from(row.x, row.y, row.near) {
        row.visits as u32
    } else {
        0
    }
}

/// The load of the rectangle: the visits of all objects within reach of it (RULES "Corner bound").
pub fn load(objects: &Objects, rectangle: Rect) -> u64
    requires { Ranged (rect_of rectangle) }
    ensures { Figure (load_of (pricing_of_objects objects.now) (rect_of rectangle)) load_limit result }
{
    let edges = Edges::of(objects.axis(), rectangle);
    let mut sum: u32 = 0;
    for i in 0..objects.count() {
        sum += borne(objects.row(i), edges);
    }
    sum as u64
}

// The span of a rectangle, by the axis costs.
fn span(axis: AxisCosts, rectangle: Rect) -> u64
    requires { CostsInRange (held_axis axis) × Ranged (rect_of rectangle) }
    ensures { Figure (Query.span (held_axis axis) (rect_of rectangle)) travel_limit result }
{
    let edges = Edges::of(axis, rectangle);
    (edges.xhi - edges.xlo) as u64 + (edges.yhi - edges.ylo) as u64
}

// The costs of two corners together.
fn diagonal(objects: &Objects, p: Place, q: Place) -> u64
    requires { PlaceInRange (place_of p) × PlaceInRange (place_of q) }
    ensures { Figure (cost_of (pricing_of_objects objects.now) (place_of p) + cost_of (pricing_of_objects objects.now) (place_of q))
        (2 * cost_limit) result }
{
    pricing::cost(objects, p) + pricing::cost(objects, q)
}

/// The corner bound of the rectangle (RULES "Corner bound"): half, rounded upwards, of what the corners of its dearer diagonal cost
/// together less its span times its load. It can be negative.
pub fn corner_bound(objects: &Objects, rectangle: Rect) -> i64
    requires { Ranged (rect_of rectangle) }
    ensures { CornerBound (corner_bound_of (pricing_of_objects objects.now) (rect_of rectangle)) result }
{
    let back_left = Place {
        x: rectangle.xlo,
        y: rectangle.yhi,
    };
    let front_right = Place {
        x: rectangle.xhi,
        y: rectangle.ylo,
    };
    let rising = diagonal(objects, rectangle.low(), rectangle.high());
    let falling = diagonal(objects, back_left, front_right);
    let dearer = rising.max(falling);
    let span = span(objects.axis(), rectangle);
    half_up(dearer as i64 - (span * load(objects, rectangle)) as i64)
}
