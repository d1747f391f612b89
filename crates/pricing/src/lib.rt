// The cost of a place, the bound of a rectangle, and both of the two parts of a cell (RULES "Cost", "Bound"): passes over the 32-bit
// columns of objects at scaled places, which the compiler can vectorise. Places and rectangles are scaled once, before the pass.
#![tactic(auto)]

ghost use Rattle.std.specs.Prelude.{◌≡◌, ◌-◌, ◌*◌, ◌≤◌, min, pos, nat_abs, ◌≤ℤ◌};
ghost use Rattle.query.specs.Range.{cost_limit, travel_limit, visits_limit, PlaceInRange};
ghost use Rattle.deck.specs.Values.{place_of, rect_of};
ghost use Rattle.reach.specs.Columns.{Ranged};
ghost use Rattle.reach.specs.Held.{columns_of_objects, count_of_objects, edges_rect, pricing_of_objects};
ghost use Rattle.pricing.specs.ObjectFigures.{cost_of, before_of, bound_of, Figure, PartsPriced};
ghost use Rattle.pricing.specs.Spared.{scaled_place_of, SparedBy};

use columns::ScaledPlace;
use deck::{Place, Rect};
use limits::STOPS;
use reach::{Edges, Objects, Row};

// What an object pays for a post at some travel: its visits times the smaller of its near and the travel.
fn paid(row: Row, travel: i32) -> u64
    requires { (pos 0 ≤ℤ travel) × (nat_abs travel ≤ travel_limit) }
    ensures { result ≡ nat_abs row.visits * min (nat_abs row.near) (nat_abs travel) }
{
    let m = travel.min(row.near);
    // Casts: `unsigned_abs` would test the sign of each number of the pass.
    ((row.visits as u32) as u64) * ((m as u32) as u64)
}

/// The cost of the place `at` (RULES "Cost").
pub fn cost(objects: &Objects, at: Place) -> u64
    requires { PlaceInRange (place_of at) }
    ensures { Figure (cost_of (pricing_of_objects objects.now) (place_of at)) cost_limit result }
{
    let axis = objects.axis();
    let post = ScaledPlace::of(axis, at);
    let mut sum: u64 = 0;
    for i in 0..objects.count() {
        let row = objects.row(i);
        let stop = ScaledPlace { x: row.x, y: row.y };
        sum += paid(row, stop.travel_to(post));
    }
    sum
}

/// The bound of the rectangle (RULES "Bound"): what all stops would pay if each had one more post, at its closest point of it.
pub fn bound(objects: &Objects, rectangle: Rect) -> u64
    requires { Ranged (rect_of rectangle) }
    ensures { Figure (bound_of (pricing_of_objects objects.now) (rect_of rectangle)) cost_limit result }
{
    let edges = Edges::of(objects.axis(), rectangle);
    let mut sum: u64 = 0;
    for i in 0..objects.count() {
        let row = objects.row(i);
        sum += paid(row, edges.travel_from(row.x, row.y));
    }
    sum
}

/// Of two parts of a cell the costs of the corners that its cut makes, and their bounds.
#[derive(Clone, Copy)]
pub struct PartFigures {
    /// The cost of the low corner of the second part.
    pub low_cost: u64,
    /// The cost of the high corner of the first part.
    pub high_cost: u64,
    /// The bounds of the parts.
    pub first_bound: u64,
    pub second_bound: u64,
}

// How far a travel is below an object's near; 0 where it is not.
fn below_near(row: Row, travel: i32) -> i32
    requires { (pos 0 ≤ℤ travel) × (nat_abs travel ≤ travel_limit) }
    ensures { result ≡ pos (nat_abs row.near - nat_abs travel) }
{
    if travel < row.near {
        row.near - travel
    } else {
        0
    }
}

// How far travels are below near, row by row: those to two places and to two rectangles.
#[derive(Drop)]
struct Spared {
    low: [i32; STOPS],
    high: [i32; STOPS],
    first: [i32; STOPS],
    second: [i32; STOPS],
}

// For each object how far its travels to two scaled places and two scaled rectangles are below its near.
#[inline(always)]
fn put_spared(
    objects: &Objects,
    low: ScaledPlace,
    high: ScaledPlace,
    first: Edges,
    second: Edges,
    spared: &mut Spared,
)
    ensures { SparedBy (columns_of_objects objects.now) (count_of_objects objects.now) (scaled_place_of low) (scaled_place_of high)
        (edges_rect first) (edges_rect second) spared.new }
{
    for i in 0..objects.count() {
        let row = objects.row(i);
        let stop = ScaledPlace { x: row.x, y: row.y };
        spared.low[i] = below_near(row, stop.travel_to(low));
        spared.high[i] = below_near(row, stop.travel_to(high));
        spared.first[i] = below_near(row, first.travel_from(row.x, row.y));
        spared.second[i] = below_near(row, second.travel_from(row.x, row.y));
    }
}

// What an object saves: its visits times what it is spared of its near.
fn saved(row: Row, spared: i32) -> u64
    requires { (pos 0 ≤ℤ spared) × (nat_abs spared ≤ travel_limit) }
    ensures { Figure (nat_abs row.visits * nat_abs spared) (visits_limit * travel_limit) result }
{
    ((row.visits as u32) as u64) * ((spared as u32) as u64)
}

/// The figures of the two parts of a cell (RULES "Cost", "Bound"); `before` is what all objects pay without a new post.
// What is saved of `before` takes fewer steps than the smaller of near and travel, and a pass of its own for the 32-bit numbers takes four
// objects at a time. Inlined, so that what the parts have in common is found once.
#[inline(always)]
pub fn parts(objects: &Objects, before: u64, first: Rect, second: Rect) -> PartFigures
    requires { Figure (before_of (pricing_of_objects objects.now)) cost_limit before × Ranged (rect_of first)
        × Ranged (rect_of second) }
    ensures { PartsPriced (pricing_of_objects objects.now) (rect_of first) (rect_of second) result }
{
    let axis = objects.axis();
    let low_corner = ScaledPlace::of(axis, second.low());
    let high_corner = ScaledPlace::of(axis, first.high());
    let first_edges = Edges::of(axis, first);
    let second_edges = Edges::of(axis, second);
    let mut spared = Spared {
        low: [0; STOPS],
        high: [0; STOPS],
        first: [0; STOPS],
        second: [0; STOPS],
    };
    put_spared(
        objects,
        low_corner,
        high_corner,
        first_edges,
        second_edges,
        &mut spared,
    );
    let mut at_low: u64 = 0;
    let mut at_high: u64 = 0;
    let mut in_first: u64 = 0;
    let mut in_second: u64 = 0;
    for i in 0..objects.count() {
        let row = objects.row(i);
        at_low += saved(row, spared.low[i]);
        at_high += saved(row, spared.high[i]);
        in_first += saved(row, spared.first[i]);
        in_second += saved(row, spared.second[i]);
    }
    PartFigures {
        low_cost: before - at_low,
        high_cost: before - at_high,
        first_bound: before - in_first,
        second_bound: before - in_second,
    }
}
