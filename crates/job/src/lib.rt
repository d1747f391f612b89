// The job format (RULES "Job"): a job's bytes are read as the deck and rounds that they spell, or refused at their first fault.

#![tactic(auto)]

ghost use Rattle.std.specs.Prelude.{◌≡◌, ◌≤◌};
ghost use Rattle.deck.specs.Values.{held_axis};
ghost use Rattle.deck.specs.Ranges.{CostsInRange};
ghost use Rattle.job_line.specs.Reading.{area_numbers};
ghost use Rattle.job.specs.File.{writes_axis};
ghost use Rattle.job.specs.Format.{area_of, empty_area, check_parts, read_with, read_job};
ghost use Rattle.job.specs.JobRecord.{job_result};
ghost use Rattle.job.specs.ManyLines.{AxisAt, NoPostsYet, NoStopsYet, PostsAt, StopsAt, LastAt, RestAt};

use deck::{AxisCosts, Deck, NO_POST, NO_STOP, Rect};
use job_line::Unread;
use limits::{JOB_BYTES, MOST_ROUNDS, POSTS, STOPS};
use refusal::Refusal;

/// What an accepted job's bytes spell: the rounds, and the deck's record, which is sound (deck/specs/Sound.antt).
#[derive(Drop)]
pub struct Job {
    /// How many rounds a search may take, 0 to 1,000.
    pub rounds: u64,
    /// The record, with near and before.
    pub deck: Deck,
}

// ---- parts; the line that is due is at most 900, any number above all lines of a job that leaves the sums in range

// The line `axis=a,b`, which is there where the text goes on with its key. Where it is missing, `missing` stands for it.
fn read_axis(unread: Unread<'_>, missing: AxisCosts) -> Result<(AxisCosts, Unread<'_>), Refusal>
    requires { unread.line ≤ 900 }
    ensures { AxisAt unread.entry missing result }
{
    if text::after_key(unread.text, b"axis=").is_none() {
        return Ok((missing, unread));
    }
    job_line::axis_line(unread)
}

// The line `posts=n` and the n lines `post=x,y` behind it, into a deck that holds none, and what is left behind them.
fn read_posts<'a>(unread: Unread<'a>, deck: &mut Deck) -> Result<Unread<'a>, Refusal>
    requires { (unread.line ≤ 900) × NoPostsYet deck.old }
    ensures { PostsAt unread.entry deck.old deck.new result }
{
    let (count, mut left) = job_line::count_line(unread, b"posts=", POSTS)?;
    for i in 0..count {
        let (post, next) = job_line::post_line(left)?;
        deck.posts[i] = post;
        left = next;
    }
    deck.post_count = count;
    Ok(left)
}

// The line `stops=n` and the n lines `stop=x,y,visits` behind it, into a deck that holds none, and what is left behind them.
fn read_stops<'a>(unread: Unread<'a>, deck: &mut Deck) -> Result<Unread<'a>, Refusal>
    requires { (unread.line ≤ 900) × NoStopsYet deck.old }
    ensures { StopsAt unread.entry deck.old deck.new result }
{
    let (count, mut left) = job_line::count_line(unread, b"stops=", STOPS)?;
    for i in 0..count {
        let (stop, next) = job_line::stop_line(left)?;
        deck.stops[i] = stop;
        left = next;
    }
    deck.stop_count = count;
    Ok(left)
}

// The line `rounds=n`, behind which nothing follows.
fn last_line(unread: Unread<'_>) -> Result<u64, Refusal>
    requires { unread.line ≤ 900 }
    ensures { LastAt unread.entry result }
{
    let (rounds, left) = job_line::count_line(unread, b"rounds=", MOST_ROUNDS)?;
    if !left.text.is_empty() {
        return Err(Refusal::Malformed(left.line));
    }
    Ok(rounds as u64)
}

// ---- the job

/// Whether a rectangle has no point, as refusal 4 says of an area (RULES "Refusals").
pub fn empty_area(area: Rect) -> bool
    ensures { result ≡ empty_area (area_of (area_numbers area)) }
{
    area.xhi < area.xlo || area.yhi < area.ylo
}

/// Refusals 4, 5 and 6, in this order, of a job with this area and so many posts and stops (RULES "Refusals").
pub fn check_parts(area: Rect, posts: usize, stops: usize) -> Result<(), Refusal>
    ensures { result ≡ check_parts (area_of (area_numbers area)) posts stops }
{
    if empty_area(area) {
        return Err(Refusal::EmptyArea);
    }
    if posts == 0 {
        return Err(Refusal::NoPosts);
    }
    if stops == 0 {
        return Err(Refusal::NoStops);
    }
    Ok(())
}

// The lines behind those of the area and the axis costs, and then refusals 4, 5 and 6: the job, with the near of its stops and its before.
// Not inlined, so that the deck stands once on the stack besides the result.
#[inline(never)]
fn read_rest(unread: Unread<'_>, area: Rect, axis: AxisCosts) -> Result<Job, Refusal>
    requires { (unread.line ≤ 3) × CostsInRange (held_axis axis) }
    ensures { RestAt unread.entry area axis result }
{
    let mut deck = Deck {
        area,
        axis,
        post_count: 0,
        posts: [NO_POST; POSTS],
        stop_count: 0,
        stops: [NO_STOP; STOPS],
        near: [0; STOPS],
        before: 0,
    };
    let unread = read_posts(unread, &mut deck)?;
    let unread = read_stops(unread, &mut deck)?;
    let rounds = last_line(unread)?;
    check_parts(area, deck.post_count, deck.stop_count)?;
    deck.near = columns::nears_of(axis, deck.listed_posts(), deck.listed_stops());
    deck.before = columns::before_of(deck.listed_stops(), deck.listed_near());
    Ok(Job { rounds, deck })
}

/// Reads a job's bytes: the rounds and the deck's record that they spell, or of the job's own refusals the first (RULES "Refusals"). A job
/// without an axis line has the axis costs `missing`, each from 1 to 9.
pub fn read_with(bytes: &[u8], missing: AxisCosts) -> Result<Job, Refusal>
    requires { CostsInRange (held_axis missing) }
    ensures { result ≡ job_result (read_with (held_axis missing) bytes.now) }
{
    if JOB_BYTES < bytes.len() {
        return Err(Refusal::TooLong);
    }
    let whole = Unread {
        text: bytes,
        line: 1,
    };
    let (area, unread) = job_line::area_line(whole)?;
    let (costs, unread) = read_axis(unread, missing)?;
    read_rest(unread, area, costs)
}

/// Reads a job's bytes as every call does: without an axis line the axis costs are 1 and 1 (RULES "Job").
pub fn read(bytes: &[u8]) -> Result<Job, Refusal>
    ensures { result ≡ job_result (read_job bytes.now) }
{
    read_with(bytes, AxisCosts { a: 1, b: 1 })
}

/// Whether the file of a record with these axis costs has a line for them: costs of 1 and 1 have none (RULES "Change 1").
pub fn writes_axis(costs: AxisCosts) -> bool
    ensures { result ≡ writes_axis (held_axis costs) }
{
    costs.a != 1 || costs.b != 1
}
