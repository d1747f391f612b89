// A deck's record (RULES "Deck", "Change 5"): its area and axis costs, its posts and stops, and the figures that it keeps.
#![tactic(auto)]

ghost use Rattle.std.specs.Prelude.{◌≡◌, ◌≤◌, take};
ghost use Rattle.query.specs.Place.{coordinate, low_edge, high_edge};
ghost use Rattle.query.specs.Range.{posts_limit, stops_limit};
ghost use Rattle.deck.specs.Values.{axis_of, place_of, rect_of};

use limits::{POSTS, STOPS};

/// An axis of the deck: x to the right, y to the back.
#[derive(Clone, Copy, PartialEq)]
pub enum Axis {
    X,
    Y,
}

/// A place by its coordinates, in tenths of a millimetre (RULES "Deck"). It may be out of range: reading, checking and writing a job hold
/// such places too.
#[repr(C)]
#[derive(Clone, Copy, PartialEq, Eq)]
pub struct Place {
    pub x: i64,
    pub y: i64,
}

impl Place {
    /// The coordinate along an axis.
    pub fn along(self, axis: Axis) -> i64
        ensures { result ≡ coordinate (axis_of axis) (place_of self) }
    {
        match axis {
            Axis::X => self.x,
            Axis::Y => self.y,
        }
    }
}

/// A stop as a job lists it: where it is, and how often it is visited.
#[repr(C)]
#[derive(Clone, Copy, PartialEq, Eq)]
pub struct Stop {
    pub at: Place,
    pub visits: u64,
}

/// What stands behind the posts of a sound record: all 0.
pub const NO_POST: Place = Place { x: 0, y: 0 };

/// What stands behind the stops of a sound record: all 0.
pub const NO_STOP: Stop = Stop {
    at: NO_POST,
    visits: 0,
};

/// A rectangle by its edges, which belong to it, in tenths of a millimetre. It may be out of range, or have a high edge below its low one
/// and so no point.
#[repr(C)]
#[derive(Clone, Copy, PartialEq, Eq)]
pub struct Rect {
    pub xlo: i64,
    pub ylo: i64,
    pub xhi: i64,
    pub yhi: i64,
}

impl Rect {
    /// The corner of the low edges.
    pub fn low(self) -> Place
        ensures { result ≡ record { x = self.xlo; y = self.ylo } }
    {
        Place {
            x: self.xlo,
            y: self.ylo,
        }
    }

    /// The corner of the high edges.
    pub fn high(self) -> Place
        ensures { result ≡ record { x = self.xhi; y = self.yhi } }
    {
        Place {
            x: self.xhi,
            y: self.yhi,
        }
    }

    /// The low and the high edge along an axis.
    pub fn edges(self, axis: Axis) -> (i64, i64)
        ensures { result ≡ (low_edge (axis_of axis) (rect_of self), high_edge (axis_of axis) (rect_of self)) }
    {
        match axis {
            Axis::X => (self.xlo, self.xhi),
            Axis::Y => (self.ylo, self.yhi),
        }
    }
}

/// What a tenth of a millimetre costs along x (`a`) and along y (`b`) (RULES "Travel"). A record that a caller hands over may hold any
/// costs; those of an accepted job are 1 to 9.
#[repr(C)]
#[derive(Clone, Copy, PartialEq, Eq)]
pub struct AxisCosts {
    pub a: u64,
    pub b: u64,
}

/// A deck's record, laid out as C has such structs: its area, its axis costs, and its posts and stops at the front of arrays, of which the
/// first `post_count` and the first `stop_count` count. A caller's record may hold any numbers and counts; a sound one
/// (deck/specs/Sound.antt), as reading and changes leave it, has 0 in all that stands behind, the near of each stop in `near` and the
/// deck's before in `before`.
#[repr(C)]
#[derive(Clone, Copy)]
pub struct Deck {
    /// Where one more post may go.
    pub area: Rect,
    /// What travel costs along each axis.
    pub axis: AxisCosts,
    /// How many posts there are, 64 at most in a sound record.
    pub post_count: usize,
    /// The posts, and what stands behind them.
    pub posts: [Place; POSTS],
    /// How many stops there are, 512 at most in a sound record.
    pub stop_count: usize,
    /// The stops, and what stands behind them.
    pub stops: [Stop; STOPS],
    /// The near of each stop, at its index (RULES "Near").
    pub near: [u64; STOPS],
    /// What one run costs with the posts that there are (RULES "Cost").
    pub before: u64,
}

impl Deck {
    /// The posts that count.
    pub fn listed_posts(&self) -> &[Place]
        requires { self.now.post_count ≤ posts_limit }
        ensures { result.now ≡ take self.now.post_count self.now.posts }
    {
        &self.posts[..self.post_count]
    }

    /// The stops that count.
    pub fn listed_stops(&self) -> &[Stop]
        requires { self.now.stop_count ≤ stops_limit }
        ensures { result.now ≡ take self.now.stop_count self.now.stops }
    {
        &self.stops[..self.stop_count]
    }

    /// The near that is held of the stops that count.
    pub fn listed_near(&self) -> &[u64]
        requires { self.now.stop_count ≤ stops_limit }
        ensures { result.now ≡ take self.now.stop_count self.now.near }
    {
        &self.near[..self.stop_count]
    }
}
