// Changes of a deck's record (RULES "Change 6"): a post or a stop is added or removed, and near and before follow.
#![tactic(auto)]

ghost use Rattle.std.specs.Prelude.{◌≡◌, ◌-◌, ◌≤◌, ◌<◌, leb, cond, ◌&&◌, T, take, IfOk};
ghost use Rattle.std.specs.List.{list_all};
ghost use Rattle.std.proofs.Math.Option.{none, some};
ghost use Rattle.query.specs.Range.{PlaceInRange, StopInRange, posts_limit, stops_limit, travel_limit};
ghost use Rattle.deck.specs.DeckOf.{Sized, deck_of, with_figures};
ghost use Rattle.columns.specs.StopFigures.{paid};
ghost use Rattle.deck.specs.Ranges.{StopsInRange, NearsInRange};
ghost use Rattle.deck.specs.Values.{place_of, stop_of, no_stop};
ghost use Rattle.items.specs.Items.{is_same_place, first_place, taken_out_at};
ghost use Rattle.job_check.specs.LineFaults.{checked_as};
ghost use Rattle.job.specs.Spelling.{stop_line};
ghost use Rattle.refusal.specs.declared.Refusal.TheVariants.{OutOfRange};
ghost use Rattle.change.specs.Change.{add_post, remove_post, add_stop, remove_stop, line_in_range};
ghost use Rattle.change.specs.ChangedRecord.{usable, with_stop_list, altered_record, changed_record};

use deck::{Deck, NO_POST, NO_STOP, Place, Stop};
use limits::{MOST_VISITS, POSTS, STOPS};
use refusal::Refusal;

// The longest travel, as travel_limit of query/specs/Range.antt has it.
const MOST_TRAVEL: u64 = 720000;

// ---- which records and values are taken

// Whether the first `count` numbers are each at most the longest travel.
fn all_travels(near: &[u64], count: usize) -> bool
    ensures { result ≡ list_all (λ n. leb n travel_limit) (take count near.now) }
{
    near.iter().take(count).all(|n| *n <= MOST_TRAVEL)
}

// Whether a record can be changed: its file is one that the reader accepts, and no stop's near is above the longest travel.
fn usable(deck: &Deck) -> bool
    ensures value { result ≡ usable deck.now }
    ensures sized { Sized deck.now }
{
    job_check::check(deck, 0).is_ok() && all_travels(&deck.near, deck.stop_count)
}

// Whether the values of a stop are in range. Its visits are compared as u64 first, since as i64 large ones would be other numbers.
fn stop_in_range(stop: Stop) -> bool
    ensures { result ≡ line_in_range (stop_line (stop_of stop)) }
{
    stop.visits <= MOST_VISITS as u64 && job_line::stop_in_range(stop.at, stop.visits as i64)
}

// Refusal 3, for values that are out of range or a record that cannot be changed.
fn check_range(deck: &Deck, in_range: bool) -> Result<(), Refusal>
    ensures refusal { checked_as result ≡ cond (in_range && usable deck.now) none (some (OutOfRange 0)) }
    ensures sized { IfOk result (λ u. Sized deck.now) }
{
    if in_range && usable(deck) {
        Ok(())
    } else {
        Err(Refusal::OutOfRange(0))
    }
}

// ---- the changes

// Makes `before` that of the visits and the near that are held.
fn renew_before(deck: &mut Deck)
    requires { StopsInRange (take deck.old.stop_count deck.old.stops) × NearsInRange deck.old.near deck.old.stop_count
        × (deck.old.stop_count ≤ stops_limit) }
    ensures { deck.new ≡ with_figures deck.old deck.old.near (paid (deck_of deck.old).stops deck.old.near) }
{
    deck.before = columns::before_of(deck.listed_stops(), deck.listed_near());
}

// Puts a post behind the last.
fn put_post(deck: &mut Deck, post: Place)
    requires { Sized deck.old × T (usable deck.old) × (deck.old.post_count < posts_limit) × PlaceInRange (place_of post) }
    ensures { deck.new ≡ altered_record (add_post (place_of post)) deck.old }
{
    let n = deck.stop_count;
    near_change::improve(&mut deck.near, &deck.stops[..n], deck.axis, post);
    deck.posts[deck.post_count] = post;
    deck.post_count += 1;
    renew_before(deck);
}

// Takes out post i, counted from 0, which is the first at this place.
fn take_post(deck: &mut Deck, post: Place, i: usize)
    requires { Sized deck.old × T (usable deck.old) × PlaceInRange (place_of post)
        × (i ≡ first_place (is_same_place (place_of post)) (deck_of deck.old).posts) × (i < deck.old.post_count)
        × (2 ≤ deck.old.post_count) }
    ensures { deck.new ≡ altered_record (remove_post (place_of post)) deck.old }
{
    let k = deck.post_count;
    items::take_out(&mut deck.posts[..k], i, NO_POST);
    deck.post_count = k - 1;
    let n = deck.stop_count;
    near_change::renew_without(
        &mut deck.near,
        &deck.stops[..n],
        deck.axis,
        post,
        &deck.posts[..k - 1],
    );
    renew_before(deck);
}

// Puts a stop behind the last.
fn put_stop(deck: &mut Deck, stop: Stop)
    requires { Sized deck.old × T (usable deck.old) × (deck.old.stop_count < stops_limit) × StopInRange (stop_of stop) }
    ensures { deck.new ≡ altered_record (add_stop (stop_of stop)) deck.old }
{
    let n = deck.stop_count;
    deck.near[n] = near_change::near_of(deck.axis, deck.listed_posts(), stop.at);
    deck.stops[n] = stop;
    deck.stop_count = n + 1;
    renew_before(deck);
}

// Takes out stop i, counted from 0.
fn take_stop(deck: &mut Deck, i: usize)
    requires { Sized deck.old × T (usable deck.old) × (i < deck.old.stop_count) × (2 ≤ deck.old.stop_count) }
    ensures { deck.new ≡ with_stop_list deck.old (deck.old.stop_count - 1)
        (taken_out_at deck.old.stop_count i no_stop deck.old.stops) (taken_out_at deck.old.stop_count i 0 deck.old.near) }
{
    let n = deck.stop_count;
    items::take_out(&mut deck.stops[..n], i, NO_STOP);
    items::take_out(&mut deck.near[..n], i, 0);
    deck.stop_count = n - 1;
    renew_before(deck);
}

/// Adds a post behind the last, and brings near and before up to date. Refusal 3 where the place is out of range or the record cannot be
/// changed, 10 where it has as many posts as a deck may have; each leaves the record as it was.
pub fn add_post(deck: &mut Deck, post: Place) -> Result<(), Refusal>
    ensures { record { answer = result; deck = deck.new } ≡ changed_record (add_post (place_of post)) deck.old }
{
    check_range(deck, job_line::place_in_range(post))?;
    if POSTS <= deck.post_count {
        return Err(Refusal::Full);
    }
    put_post(deck, post);
    Ok(())
}

/// Removes the first post at this place: the later ones move up by one, 0 stands where the last was, and near and before follow. Refusal 3
/// where the place is out of range or the record cannot be changed, 9 where no post is there, 5 where no other post is; each leaves the
/// record as it was.
pub fn remove_post(deck: &mut Deck, post: Place) -> Result<(), Refusal>
    ensures { record { answer = result; deck = deck.new } ≡ changed_record (remove_post (place_of post)) deck.old }
{
    check_range(deck, job_line::place_in_range(post))?;
    let i = items::find_post(deck.listed_posts(), post).ok_or(Refusal::NotHeld)?;
    if deck.post_count == 1 {
        return Err(Refusal::NoPosts);
    }
    take_post(deck, post, i);
    Ok(())
}

/// Adds a stop behind the last, with the near that the posts give it, and before follows. Refusal 3 where a value of it is out of range or
/// the record cannot be changed, 10 where it has as many stops as a deck may have; each leaves the record as it was.
pub fn add_stop(deck: &mut Deck, stop: Stop) -> Result<(), Refusal>
    ensures { record { answer = result; deck = deck.new } ≡ changed_record (add_stop (stop_of stop)) deck.old }
{
    check_range(deck, stop_in_range(stop))?;
    if STOPS <= deck.stop_count {
        return Err(Refusal::Full);
    }
    put_stop(deck, stop);
    Ok(())
}

/// Removes the first stop with this place and these visits: the later ones move up by one with their near, 0 stands where the last was, and
/// before follows. Refusal 3 where a value is out of range or the record cannot be changed, 9 where no stop has these values, 6 where there
/// is no other stop; each leaves the record as it was.
pub fn remove_stop(deck: &mut Deck, stop: Stop) -> Result<(), Refusal>
    ensures { record { answer = result; deck = deck.new } ≡ changed_record (remove_stop (stop_of stop)) deck.old }
{
    check_range(deck, stop_in_range(stop))?;
    let i = items::find_stop(deck.listed_stops(), stop).ok_or(Refusal::NotHeld)?;
    if deck.stop_count == 1 {
        return Err(Refusal::NoStops);
    }
    take_stop(deck, i);
    Ok(())
}
