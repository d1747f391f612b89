// The near of the stops of a record with one post more, and with one less, and of one more stop (RULES "Change 6").
#![tactic(auto)]

ghost use Rattle.std.specs.Prelude.{◌≡◌, ◌≤◌, map, length};
ghost use mathlib.Core.List.{zip_with};
ghost use Rattle.std.proofs.Math.Seq.{paste};
ghost use Rattle.query.specs.Travel.{travel, closest};
ghost use Rattle.query.specs.Range.{PlaceInRange};
ghost use Rattle.columns.specs.Held.{axis_of_posts, places_of_posts};
ghost use Rattle.deck.specs.Ranges.{CostsInRange, PostsInRange, StopPlacesInRange};
ghost use Rattle.deck.specs.Values.{held_axis, place_of, stop_of};
ghost use Rattle.near_change.specs.NearChange.{near_but, near_with, near_without};

use columns::ScaledPosts;
use deck::{AxisCosts, Place, Stop};

// The travel between two places.
fn travel(axis: AxisCosts, p: Place, q: Place) -> u64
    requires { CostsInRange (held_axis axis) × PlaceInRange (place_of p) × PlaceInRange (place_of q) }
    ensures { result ≡ travel (held_axis axis) (place_of p) (place_of q) }
{
    axis.a * numbers::abs_diff(p.x, q.x) + axis.b * numbers::abs_diff(p.y, q.y)
}

// The near of a stop with one more post.
fn near_with(near: u64, axis: AxisCosts, stop: Place, post: Place) -> u64
    requires { CostsInRange (held_axis axis) × PlaceInRange (place_of stop) × PlaceInRange (place_of post) }
    ensures { result ≡ near_with (held_axis axis) (place_of post) (place_of stop) near }
{
    near.min(travel(axis, stop, post))
}

/// Brings `near`, the near of these stops, up to date for one more post: what is held of each stop becomes the travel to the post where
/// that is less. What stands behind the last stop's near stays.
pub fn improve(near: &mut [u64], stops: &[Stop], axis: AxisCosts, post: Place)
    requires { CostsInRange (held_axis axis) × StopPlacesInRange stops.now × PlaceInRange (place_of post)
        × (length stops.now ≤ length near.old) }
    ensures { near.new ≡ paste near.old 0
        (zip_with (λ s n. near_with (held_axis axis) (place_of post) (stop_of s).at n) stops.now near.old) (length stops.now) }
{
    for i in 0..stops.len() {
        near[i] = near_with(near[i], axis, stops[i].at, post);
    }
}

// The near of a stop without a post, where these are left: found again only where it was the travel to that post.
fn near_without(near: u64, stop: Place, post: Place, left: &ScaledPosts) -> u64
    requires { PlaceInRange (place_of stop) × PlaceInRange (place_of post) }
    ensures { result ≡ near_but (held_axis (axis_of_posts left.now)) (place_of post) (places_of_posts left.now)
        (place_of stop) near }
{
    if near == travel(left.axis(), stop, post) {
        left.closest_to(stop)
    } else {
        near
    }
}

// Brings the near of stops up to date for a post that goes, where these are left. A loop of its own beside that of `improve`: one for both
// would take a closure with clauses on each of its calls, which is longer than the loop.
fn reprice(near: &mut [u64], stops: &[Stop], post: Place, left: &ScaledPosts)
    requires { StopPlacesInRange stops.now × PlaceInRange (place_of post) × (length stops.now ≤ length near.old) }
    ensures { near.new ≡ paste near.old 0
        (zip_with
        (λ s n. near_but (held_axis (axis_of_posts left.now)) (place_of post) (places_of_posts left.now) (stop_of s).at n)
        stops.now near.old) (length stops.now) }
{
    for i in 0..stops.len() {
        near[i] = near_without(near[i], stops[i].at, post, left);
    }
}

/// Brings `near`, the near of these stops, up to date for a post that goes, where the posts `left` are left, one at least:
/// it is found anew of just those stops whose held near is their travel to that post. What stands behind the last stop's near stays.
pub fn renew_without(near: &mut [u64], stops: &[Stop], axis: AxisCosts, post: Place, left: &[Place])
    requires { CostsInRange (held_axis axis) × StopPlacesInRange stops.now × PlaceInRange (place_of post)
        × (length stops.now ≤ length near.old) × PostsInRange left.now × (1 ≤ length left.now) }
    ensures { near.new ≡ paste near.old 0
        (zip_with (λ s n. near_without (held_axis axis) (place_of post) (map place_of left.now) (stop_of s).at n) stops.now near.old)
        (length stops.now) }
{
    let left = ScaledPosts::of(axis, left);
    reprice(near, stops, post, &left);
}

/// The near of a stop at this place (RULES "Near"): its travel to the closest of these posts, of which there is one at least.
pub fn near_of(axis: AxisCosts, posts: &[Place], place: Place) -> u64
    requires { CostsInRange (held_axis axis) × PostsInRange posts.now × PlaceInRange (place_of place) × (1 ≤ length posts.now) }
    ensures { result ≡ closest (held_axis axis) (place_of place) (map place_of posts.now) }
{
    ScaledPosts::of(axis, posts).closest_to(place)
}
