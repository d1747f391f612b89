// Posts and stops found by their values, and an element taken out of an array (RULES "Change 6").
#![tactic(auto)]

ghost use Rattle.std.specs.Prelude.{◌≡◌, ◌<◌, map, length};
ghost use Rattle.deck.specs.Values.{place_of, stop_of};
ghost use Rattle.items.specs.Items.{is_same_place, is_same_stop, first_found, taken_out_at};

use deck::{Place, Stop};

// ---- finding an item

fn same_place(p: Place, q: Place) -> bool
    ensures { result ≡ is_same_place (place_of p) (place_of q) }
{
    p == q
}

/// Which of the posts, counted from 0, is the first at this place. None where no post is.
pub fn find_post(posts: &[Place], place: Place) -> Option<usize>
    ensures { result ≡ first_found (is_same_place (place_of place)) (map place_of posts.now) }
{
    posts.iter().position(|post| same_place(place, *post))
}

fn same_stop(s: Stop, t: Stop) -> bool
    ensures { result ≡ is_same_stop (stop_of s) (stop_of t) }
{
    s == t
}

/// Which of the stops, counted from 0, is the first with the values of this one: its place and its visits. None where no stop has them.
pub fn find_stop(stops: &[Stop], stop: Stop) -> Option<usize>
    ensures { result ≡ first_found (is_same_stop (stop_of stop)) (map stop_of stops.now) }
{
    stops.iter().position(|other| same_stop(stop, *other))
}

// ---- removing an element

/// Takes out one element, by its index from 0: the later ones move up by one, and `zero` stands where the last of them was.
pub fn take_out<T: Copy>(elements: &mut [T], index: usize, zero: T)
    requires { index < length elements.old }
    ensures { elements.new ≡ taken_out_at (length elements.old) index zero elements.old }
{
    let last = elements.len() - 1;
    // a loop: `rotate_left` is a `memmove`, which a library for C would then need from outside
    for place in index..last {
        elements[place] = elements[place + 1];
    }
    elements[last] = zero;
}
