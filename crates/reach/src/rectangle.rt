// The scaled edges of a rectangle, the travel to it, and whether it is reached.

ghost use Rattle.std.specs.Prelude.{◌≡◌, ◌+◌, ◌≤◌, ltb, pos, nat_abs, ◌≤ℤ◌};
ghost use Rattle.numbers.specs.Integer.{dist, clamp};
ghost use Rattle.query.specs.Range.{travel_limit};
ghost use Rattle.deck.specs.Ranges.{CostsInRange};
ghost use Rattle.columns.specs.Ranges.{scaled_limit, ScaledPlaceInRange};
ghost use Rattle.deck.specs.Values.{held_axis, rect_of};
ghost use Rattle.reach.specs.Columns.{Ranged, EdgesInRange, excess_of};

use columns::scaled;
use deck::{AxisCosts, Rect};

/// The edges of a rectangle, each multiplied by the cost of its axis, as passes over objects at scaled places compare with them.
#[derive(Clone, Copy)]
pub struct Edges {
    pub xlo: i32,
    pub ylo: i32,
    pub xhi: i32,
    pub yhi: i32,
    pub ghost in_range: { EdgesInRange xlo ylo xhi yhi },
}

// How far a lies above b; 0 where it does not.
fn excess(a: i32, b: i32) -> i32
    requires { ScaledPlaceInRange a b }
    ensures { result ≡ pos (excess_of a b) }
{
    if b < a { a - b } else { 0 }
}

// The distance of v to the closest number of lo .. hi.
fn outside(v: i32, lo: i32, hi: i32) -> i32
    requires { (nat_abs v ≤ scaled_limit) × ScaledPlaceInRange lo hi × (lo ≤ℤ hi) }
    ensures { result ≡ pos (dist v (clamp lo hi v)) }
{
    excess(lo, v) + excess(v, hi)
}

impl Edges {
    ghost use Rattle.reach.specs.Held.{EdgesOf};

    /// The edges of the rectangle under these axis costs.
    pub fn of(axis: AxisCosts, rectangle: Rect) -> Edges
        requires { CostsInRange (held_axis axis) × Ranged (rect_of rectangle) }
        ensures { EdgesOf (held_axis axis) (rect_of rectangle) result }
    {
        let a = axis.a as i32;
        let b = axis.b as i32;
        Edges {
            xlo: scaled(a, rectangle.xlo),
            ylo: scaled(b, rectangle.ylo),
            xhi: scaled(a, rectangle.xhi),
            yhi: scaled(b, rectangle.yhi),
        }
    }

    /// The travel from an object at the scaled place `x`, `y` to the point of the rectangle that is closest to it (RULES "Travel").
    pub fn travel_from(self, x: i32, y: i32) -> i32
        requires { ScaledPlaceInRange x y }
        ensures { (result ≡ pos (dist x (clamp self.xlo self.xhi x) + dist y (clamp self.ylo self.yhi y)))
            × (nat_abs result ≤ travel_limit) }
    {
        outside(x, self.xlo, self.xhi) + outside(y, self.ylo, self.yhi)
    }

    /// Whether an object at the scaled place `x`, `y` is within reach of the rectangle (RULES "Reach"): its travel to the closest point is
    /// less than its near.
    pub fn reached_from(self, x: i32, y: i32, near: i32) -> bool
        requires { ScaledPlaceInRange x y × (pos 0 ≤ℤ near) }
        ensures { result ≡ ltb (dist x (clamp self.xlo self.xhi x) + dist y (clamp self.ylo self.yhi y)) (nat_abs near) }
    {
        self.travel_from(x, y) < near
    }
}
