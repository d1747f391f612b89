// The refusal that reading the file of a deck's record and rounds would give (RULES "Change 1"), found from their numbers.
#![tactic(auto)]

ghost use Rattle.std.specs.Prelude.{◌≡◌, cond, [], ◌∷◌, map, ◌≤◌, pos, length};
ghost use Rattle.query.specs.Range.{posts_limit, stops_limit};
ghost use Rattle.deck.specs.DeckOf.{Sized, deck_of};
ghost use Rattle.deck.specs.Values.{held_axis, place_of, stop_of};
ghost use Rattle.job_line.specs.Kinds.{area, axis, posts, post, stops, stop, up_to, row};
ghost use Rattle.job_line.specs.Reading.{area_numbers, cost_numbers, place_numbers, stop_numbers};
ghost use Rattle.job.specs.Format.{read_text};
ghost use Rattle.job.specs.Spelling.{count_line, post_line, stop_line};
ghost use Rattle.job.specs.File.{writes_axis, file_text};
ghost use Rattle.job_check.specs.LineFaults.{short, all_short, tested_fault, numbers_fault, first_fault};
ghost use Rattle.job_check.specs.LineFaults.{refusal_in, checked_as};

use deck::{AxisCosts, Deck, Place, Rect, Stop};
use limits::{MOST_ROUNDS, POSTS, STOPS};
use refusal::Refusal;

// The smallest number of ten digits.
const FIRST_LONG: u64 = 1000000000;

// ---- whether numbers have at most nine digits

fn short(z: i64) -> bool
    ensures { result ≡ short z }
{
    z.unsigned_abs() < FIRST_LONG
}

fn short_place(p: Place) -> bool
    ensures { result ≡ all_short (place_numbers p) }
{
    short(p.x) && short(p.y)
}

fn short_area(a: Rect) -> bool
    ensures { result ≡ all_short (area_numbers a) }
{
    short_place(a.low()) && short_place(a.high())
}

fn short_costs(c: AxisCosts) -> bool
    ensures { result ≡ all_short (cost_numbers c) }
{
    c.a < FIRST_LONG && c.b < FIRST_LONG
}

fn short_stop(s: Stop) -> bool
    ensures { result ≡ all_short (stop_numbers s) }
{
    short_place(s.at) && s.visits < FIRST_LONG
}

// ---- one line

// A line whose numbers are not short is malformed; one whose short numbers are not in range is out of range.
fn check_numbers(short: bool, in_range: bool, line: u64) -> Result<(), Refusal>
    ensures { checked_as result ≡ tested_fault short in_range line }
{
    if !short {
        return Err(Refusal::Malformed(line));
    }
    if !in_range {
        return Err(Refusal::OutOfRange(line));
    }
    Ok(())
}

fn area_line(a: Rect) -> Result<(), Refusal>
    ensures { checked_as result ≡ numbers_fault (row area).ranges 1 (area_numbers a) }
{
    let in_range = job_line::area_in_range(a);
    check_numbers(short_area(a), in_range, 1)
}

fn axis_line(c: AxisCosts) -> Result<(), Refusal>
    ensures { checked_as result ≡ numbers_fault (row axis).ranges 2 (cost_numbers c) }
{
    check_numbers(short_costs(c), job_line::axis_in_range(c), 2)
}

// `posts=n`, `stops=n`, `rounds=n`: a number from 0 to `most`.
fn count_line(n: u64, most: usize, line: u64) -> Result<(), Refusal>
    ensures { checked_as result ≡ numbers_fault (up_to most ∷ []) line (pos n ∷ []) }
{
    check_numbers(n < FIRST_LONG, n <= most as u64, line)
}

fn post_line(p: Place, line: u64) -> Result<(), Refusal>
    ensures { checked_as result ≡ numbers_fault (row post).ranges line (place_numbers p) }
{
    check_numbers(short_place(p), job_line::place_in_range(p), line)
}

fn stop_line(s: Stop, line: u64) -> Result<(), Refusal>
    ensures { checked_as result ≡ numbers_fault (row stop).ranges line (stop_numbers s) }
{
    if !short_stop(s) {
        return Err(Refusal::Malformed(line));
    }
    check_numbers(true, job_line::stop_in_range(s.at, s.visits as i64), line)
}

// ---- many lines

// The lines of posts, from line `first` on.
fn post_lines(posts: &[Place], first: u64) -> Result<(), Refusal>
    requires { (length posts.now ≤ posts_limit) × (first ≤ 1000) }
    ensures { checked_as result ≡ first_fault first (map post_line (map place_of posts.now)) }
{
    for (post, line) in posts.iter().zip(first..) {
        post_line(*post, line)?;
    }
    Ok(())
}

// The lines of stops, from line `first` on.
fn stop_lines(stops: &[Stop], first: u64) -> Result<(), Refusal>
    requires { (length stops.now ≤ stops_limit) × (first ≤ 1000) }
    ensures { checked_as result ≡ first_fault first (map stop_line (map stop_of stops.now)) }
{
    for (stop, line) in stops.iter().zip(first..) {
        stop_line(*stop, line)?;
    }
    Ok(())
}

// The line `posts=n`, which is line `line`, and the lines of the posts.
fn all_posts(deck: &Deck, line: u64) -> Result<(), Refusal>
    requires { line ≤ 900 }
    ensures { checked_as result ≡ first_fault line
        (count_line posts deck.now.post_count ∷ map post_line (deck_of deck.now).posts) }
{
    count_line(deck.post_count as u64, POSTS, line)?;
    post_lines(deck.listed_posts(), line + 1)
}

// The line `stops=n`, which is line `line`, and the lines of the stops.
fn all_stops(deck: &Deck, line: u64) -> Result<(), Refusal>
    requires { line ≤ 900 }
    ensures { checked_as result ≡ first_fault line
        (count_line stops deck.now.stop_count ∷ map stop_line (deck_of deck.now).stops) }
{
    count_line(deck.stop_count as u64, STOPS, line)?;
    stop_lines(deck.listed_stops(), line + 1)
}

// ---- the file

// The number of the line `posts=n`.
fn posts_at(c: AxisCosts) -> u64
    ensures { result ≡ cond (writes_axis (held_axis c)) 3 2 }
{
    if job::writes_axis(c) { 3 } else { 2 }
}

/// The refusal that the text of the file of a record and these rounds would get in reading (RULES "Refusals"), with the line that it would
/// have there. The file's size is not looked at, nor are the record's near and before, which no file holds.
pub fn check(deck: &Deck, rounds: u64) -> Result<(), Refusal>
    ensures refusal { checked_as result ≡ refusal_in (read_text (file_text deck.now rounds)) }
    // its arrays have their sizes, as those of any record of the code: for callers that look into none of them
    ensures sized { Sized deck.now }
{
    area_line(deck.area)?;
    // costs of 1 and 1, which have no line, have no fault either
    axis_line(deck.axis)?;
    let first = posts_at(deck.axis);
    all_posts(deck, first)?;
    let line = first + 1 + deck.post_count as u64;
    all_stops(deck, line)?;
    count_line(rounds, MOST_ROUNDS, line + 1 + deck.stop_count as u64)?;
    job::check_parts(deck.area, deck.post_count, deck.stop_count)
}
