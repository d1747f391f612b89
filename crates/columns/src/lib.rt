// Columns of objects: stops with their near, at places scaled by the axis costs. Near is found in them, post by post; pricing reads them.
#![tactic(auto)]

ghost use Rattle.std.specs.Prelude.{◌≡◌, cond, [], ◌∷◌, map, ◌+◌, ◌≤◌, ◌<◌, pos, nat_abs, length, get_or, take, drop, replicate};
ghost use Rattle.std.specs.Int.Signed.{lt_z};
ghost use Rattle.std.proofs.Math.Seq.{paste};
ghost use Rattle.numbers.specs.Integer.{dist, times};
ghost use Rattle.numbers.specs.Padded.{padded};
ghost use Rattle.query.specs.Deck.{plain};
ghost use Rattle.query.specs.Place.{coordinate};
ghost use Rattle.query.specs.Travel.{closest};
ghost use Rattle.query.specs.Range.{coordinate_limit, stops_limit, PlaceInRange};
ghost use Rattle.deck.specs.Values.{axis_of, place_of, stop_of, held_axis};
ghost use Rattle.deck.specs.Ranges.{CostsInRange, PostsInRange, StopPlacesInRange, VisitsInRange, NearsInRange};
ghost use Rattle.columns.specs.Columns.{y_column, near_column, columns_size, places};
ghost use Rattle.columns.specs.Objects.{scaled_place, stored_pricing};
ghost use Rattle.columns.specs.ObjectColumns.{columns_of};
ghost use Rattle.columns.specs.ClosestSoFar.{columns_so_far, columns_improved};
ghost use Rattle.columns.specs.Ranges.{ScaledPlaceInRange, AxisCostInRange, Scaled, CoordinatesInRange, RowsInRange, NearColumn};
ghost use Rattle.columns.specs.StopFigures.{Nears, paid};

use deck::{Axis, AxisCosts, Place, Stop};
use limits::{COLUMNS, NEAR_COLUMN, POSTS, STOPS, VISITS_COLUMN, X_COST, Y_COLUMN, Y_COST};

/// A coordinate multiplied by an axis cost. Travel with axis costs is plain travel between places that are scaled so.
pub fn scaled(cost: i32, coordinate: i64) -> i32
    requires { AxisCostInRange cost × (nat_abs coordinate ≤ coordinate_limit) }
    ensures { Scaled cost coordinate result }
{
    let narrow = coordinate as i32;
    cost * narrow
}

// Puts the coordinates of stops along an axis, each multiplied by its cost, into a column of their length.
fn copy_coordinates(from: &[Stop], axis: Axis, cost: i32, to: &mut [i32])
    requires { StopPlacesInRange from.now × AxisCostInRange cost × (length to.old ≡ length from.now) }
    ensures { to.new ≡ map (λ s. times (nat_abs cost) (coordinate (axis_of axis) (stop_of s).at)) from.now }
{
    for i in 0..from.len() {
        to[i] = scaled(cost, from[i].at.along(axis));
    }
}

// The visits of stops, which stay as they are.
fn copy_visits(from: &[Stop], to: &mut [i32])
    requires { VisitsInRange from.now × (length to.old ≡ length from.now) }
    ensures { to.new ≡ map (λ s. pos s.visits) from.now }
{
    for i in 0..from.len() {
        to[i] = from[i].visits as i32;
    }
}

// Near, which stays as it is.
fn copy_near(from: &[u64], to: &mut [i32])
    requires { NearsInRange from.now (length from.now) × (length to.old ≡ length from.now) }
    ensures { to.new ≡ map pos from.now }
{
    for i in 0..from.len() {
        to[i] = from[i] as i32;
    }
}

// |u − v|
fn apart(u: i32, v: i32) -> i32
    requires { ScaledPlaceInRange u v }
    ensures { result ≡ pos (dist u v) }
{
    u.abs_diff(v) as i32
}

/// A place with its coordinates multiplied by the axis costs.
#[derive(Clone, Copy)]
pub struct ScaledPlace {
    pub x: i32,
    pub y: i32,
    pub ghost in_range: { ScaledPlaceInRange x y },
}

impl ScaledPlace {
    /// A place, scaled by these costs.
    pub fn of(axis: AxisCosts, place: Place) -> ScaledPlace
        requires { CostsInRange (held_axis axis) × PlaceInRange (place_of place) }
        ensures { (result.x ≡ times axis.a place.x) × (result.y ≡ times axis.b place.y) }
    {
        ScaledPlace {
            x: scaled(axis.a as i32, place.x),
            y: scaled(axis.b as i32, place.y),
        }
    }

    /// The travel to another place that is scaled by the same costs (RULES "Travel").
    pub fn travel_to(self, other: ScaledPlace) -> i32
        ensures { result ≡ pos (dist self.x other.x + dist self.y other.y) }
    {
        apart(self.x, other.x) + apart(self.y, other.y)
    }

    // The smaller of a travel and the travel to another place.
    fn closer(self, least: i32, other: ScaledPlace) -> i32
        ensures { result
            ≡ cond (lt_z (pos (dist self.x other.x + dist self.y other.y)) least)
            (pos (dist self.x other.x + dist self.y other.y)) least }
    {
        least.min(self.travel_to(other))
    }
}

/// Posts at places that are scaled by some axis costs, one post at least.
#[derive(Drop)]
pub struct ScaledPosts {
    axis: AxisCosts,
    // the first `count` numbers of each column count
    x: [i32; POSTS],
    y: [i32; POSTS],
    count: usize,
    pub ghost costs: { CostsInRange (held_axis axis) },
    pub ghost x_range: { CoordinatesInRange x count },
    pub ghost y_range: { CoordinatesInRange y count },
    pub ghost some: { 1 ≤ count },
}

impl ScaledPosts {
    ghost use Rattle.columns.specs.Held.{axis_of_posts, places_of_posts};

    /// Posts at these places, scaled by these costs.
    pub fn of(axis: AxisCosts, posts: &[Place]) -> ScaledPosts
        requires { CostsInRange (held_axis axis) × PostsInRange posts.now × (1 ≤ length posts.now) }
        ensures axis { axis_of_posts result ≡ axis }
        ensures posts { places_of_posts result ≡ map (scaled_place (held_axis axis)) (map place_of posts.now) }
    {
        let mut x = [0i32; POSTS];
        let mut y = [0i32; POSTS];
        for j in 0..posts.len() {
            let post = ScaledPlace::of(axis, posts[j]);
            x[j] = post.x;
            y[j] = post.y;
        }
        ScaledPosts {
            axis,
            x,
            y,
            count: posts.len(),
        }
    }

    /// The axis costs that they are scaled by.
    pub fn axis(&self) -> AxisCosts
        ensures { result ≡ axis_of_posts self.now }
    {
        self.axis
    }

    // Post j, counted from 0.
    fn post(&self, j: usize) -> ScaledPlace
        requires { j < self.now.count }
        ensures { (result.x ≡ get_or self.now.x j (pos 0)) × (result.y ≡ get_or self.now.y j (pos 0)) }
    {
        ScaledPlace {
            x: self.x[j],
            y: self.y[j],
        }
    }

    // The travel from a scaled place to the closest of the posts.
    fn closest(&self, p: ScaledPlace) -> i32
        ensures { result
            ≡ pos (closest plain (record { x = p.x; y = p.y }) (places_of_posts self.now)) }
    {
        let mut least = p.travel_to(self.post(0));
        for j in 1..self.count {
            least = p.closer(least, self.post(j));
        }
        least
    }

    /// The travel from a place, not scaled yet, to the closest of the posts: its near (RULES "Near").
    pub fn closest_to(&self, place: Place) -> u64
        requires { PlaceInRange (place_of place) }
        ensures { result ≡ closest plain (scaled_place (held_axis (axis_of_posts self.now)) (place_of place))
            (places_of_posts self.now) }
    {
        let travel = self.closest(ScaledPlace::of(self.axis, place));
        (travel as u32) as u64
    }
}

// ---- near, post by post (RULES "Change 4"): the columns of stops are one array, of which the first n rows count

// The first post: the travel to it becomes the figure of each of the first n stops, in the column of near.
fn start_nears(columns: &mut [i32], n: usize, post: ScaledPlace)
    requires { RowsInRange columns.old n }
    ensures { columns.new ≡ columns_so_far columns.old n (record { x = post.x; y = post.y } ∷ []) }
{
    for i in 0..n {
        let stop = ScaledPlace {
            x: columns[i],
            y: columns[Y_COLUMN + i],
        };
        columns[NEAR_COLUMN + i] = stop.travel_to(post);
    }
}

// One more post: the figures of the first n stops become the travel to it where that is smaller.
fn improve_nears(columns: &mut [i32], n: usize, post: ScaledPlace)
    requires { RowsInRange columns.old n }
    ensures { columns.new ≡ columns_improved columns.old n (record { x = post.x; y = post.y }) }
{
    for stop in 0..n {
        let at = ScaledPlace {
            x: columns[stop],
            y: columns[Y_COLUMN + stop],
        };
        columns[NEAR_COLUMN + stop] = at.closer(columns[NEAR_COLUMN + stop], post);
    }
}

// All posts, one after another. Between two of them each figure is that of the posts that were taken, and at the end it is near.
fn put_nears(columns: &mut [i32], n: usize, posts: &ScaledPosts)
    requires { RowsInRange columns.old n }
    ensures { columns.new
        ≡ paste columns.old near_column
        (map (λ p. pos (closest plain p (take posts.now.count (places posts.now.x posts.now.y))))
        (places columns.old (drop y_column columns.old))) n }
{
    start_nears(columns, n, posts.post(0));
    for j in 1..posts.count {
        improve_nears(columns, n, posts.post(j));
    }
}

// The column of near as a record keeps it: of the first n stops, with 0 behind the last.
fn nears_in(columns: &[i32], n: usize) -> [u64; STOPS]
    requires { (n ≤ stops_limit) × NearColumn columns.now n }
    ensures { result ≡ padded stops_limit 0 (take n (map nat_abs (drop near_column columns.now))) }
{
    let mut near = [0u64; STOPS];
    for row in 0..n {
        near[row] = (columns[NEAR_COLUMN + row] as u32) as u64;
    }
    near
}

// Puts the places of stops, scaled, into the columns of x and of y.
fn put_places(axis: AxisCosts, stops: &[Stop], columns: &mut [i32])
    requires { CostsInRange (held_axis axis) × StopPlacesInRange stops.now × (columns.old ≡ replicate columns_size (pos 0)) }
    ensures { columns.new
        ≡ paste (paste columns.old 0 (map (λ s. times axis.a s.at.x) (map stop_of stops.now)) (length stops.now)) y_column
        (map (λ s. times axis.b s.at.y) (map stop_of stops.now)) (length stops.now) }
{
    let n = stops.len();
    copy_coordinates(stops, Axis::X, axis.a as i32, &mut columns[..n]);
    copy_coordinates(
        stops,
        Axis::Y,
        axis.b as i32,
        &mut columns[Y_COLUMN..Y_COLUMN + n],
    );
}

/// The near of each stop by these posts (RULES "Near"), with 0 behind the last: what a record keeps (RULES "Change 5").
pub fn nears_of(axis: AxisCosts, posts: &[Place], stops: &[Stop]) -> [u64; STOPS]
    requires { CostsInRange (held_axis axis) × PostsInRange posts.now × StopPlacesInRange stops.now × (1 ≤ length posts.now) }
    ensures { Nears (held_axis axis) (map place_of posts.now) (map stop_of stops.now) result }
{
    let posts = ScaledPosts::of(axis, posts);
    let mut columns = [0i32; COLUMNS];
    put_places(axis, stops, &mut columns);
    put_nears(&mut columns, stops.len(), &posts);
    nears_in(&columns, stops.len())
}

/// What all stops cost by the posts alone: the sum of visits × near, each stop with the near at its index (RULES "Cost").
pub fn before_of<'a>(stops: &'a [Stop], near: &'a [u64]) -> u64
    requires { VisitsInRange stops.now × NearsInRange near.now (length stops.now) }
    ensures { result ≡ paid (map stop_of stops.now) near.now }
{
    let mut sum = 0;
    for (stop, near) in stops.iter().zip(near) {
        sum += stop.visits * *near;
    }
    sum
}

/// Puts what pricing reads into an array of `COLUMNS` zeros: the columns of the stops' scaled x and y, their visits and the near that is
/// kept with them, each with 0 behind its last number, and the axis costs behind all of them.
pub fn put_columns(axis: AxisCosts, stops: &[Stop], near: &[u64], columns: &mut [i32])
    requires { CostsInRange (held_axis axis) × StopPlacesInRange stops.now × VisitsInRange stops.now
        × NearsInRange near.now (length near.now) × (length near.now ≡ length stops.now) × (columns.old ≡ replicate columns_size (pos 0)) }
    ensures { columns.new ≡ columns_of (stored_pricing (held_axis axis) (map stop_of stops.now) near.now) }
{
    let n = stops.len();
    put_places(axis, stops, columns);
    copy_visits(stops, &mut columns[VISITS_COLUMN..VISITS_COLUMN + n]);
    copy_near(near, &mut columns[NEAR_COLUMN..NEAR_COLUMN + n]);
    columns[X_COST] = axis.a as i32;
    columns[Y_COST] = axis.b as i32;
}
