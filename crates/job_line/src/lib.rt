// One line of a job (RULES "Job"): what it holds and what is left behind it, or refusal 2 of a line without its form, or refusal 3 of a
// value out of range.

#![tactic(auto)]

ghost use Rattle.std.specs.Prelude.{◌≡◌, ◌∷◌, [], pos};
ghost use Rattle.numbers.specs.Integer.{between};
ghost use Rattle.job_line.specs.Kinds.{area, axis, post, stop, coordinates, axis_costs, row, in_range, in_ranges};
ghost use Rattle.job_line.specs.Reading.{area_numbers, cost_numbers, count_numbers, place_numbers, stop_numbers};
ghost use Rattle.job_line.specs.Reading.{KeyAt, FieldAt, NextLine, reading_of, LineAt, count_row};

use deck::{AxisCosts, Place, Rect, Stop};
use limits::{LEAST_COORDINATE, MOST_AXIS_COST, MOST_COORDINATE, MOST_VISITS};
use refusal::Refusal;

/// What is left to read of a job: its text, and the number, from 1, of the line that this begins in.
#[derive(Clone, Copy)]
pub struct Unread<'a> {
    pub text: &'a [u8],
    pub line: u64,
}

// ---- ranges: whether the numbers of a line are in those of its row

fn between(lo: i64, hi: i64, v: i64) -> bool
    ensures { result ≡ between lo hi v }
{
    (lo..=hi).contains(&v)
}

fn coordinate_in_range(v: i64) -> bool
    ensures { result ≡ in_range coordinates v }
{
    between(LEAST_COORDINATE, MOST_COORDINATE, v)
}

/// Whether both coordinates of a place are in range.
pub fn place_in_range(place: Place) -> bool
    ensures { result ≡ in_ranges (row post).ranges (place_numbers place) }
{
    coordinate_in_range(place.x) && coordinate_in_range(place.y)
}

/// Whether all edges of a rectangle are in range. It may have no point.
pub fn area_in_range(rectangle: Rect) -> bool
    ensures { result ≡ in_ranges (row area).ranges (area_numbers rectangle) }
{
    place_in_range(rectangle.low()) && place_in_range(rectangle.high())
}

fn cost_in_range(v: u64) -> bool
    ensures { result ≡ in_range axis_costs (pos v) }
{
    (1..=MOST_AXIS_COST).contains(&v)
}

/// Whether both axis costs are in range.
pub fn axis_in_range(costs: AxisCosts) -> bool
    ensures { result ≡ in_ranges (row axis).ranges (cost_numbers costs) }
{
    cost_in_range(costs.a) && cost_in_range(costs.b)
}

/// Whether a stop's place and its visits are in range.
pub fn stop_in_range(place: Place, visits: i64) -> bool
    ensures { result ≡ in_ranges (row stop).ranges (place.x ∷ place.y ∷ visits ∷ []) }
{
    place_in_range(place) && between(1, MOST_VISITS, visits)
}

// ---- parts of a line: without one the line is malformed

// What is left behind a key.
fn after<'a>(unread: Unread<'a>, key: &[u8]) -> Result<Unread<'a>, Refusal>
    ensures { KeyAt key.now unread.entry result }
{
    let line = unread.line;
    let text = text::after_key(unread.text, key).ok_or(Refusal::Malformed(line))?;
    Ok(Unread { text, line })
}

// A number, and what is left behind the byte that ends it.
fn field(unread: Unread<'_>, end: u8) -> Result<(i64, Unread<'_>), Refusal>
    ensures { FieldAt end unread.entry result }
{
    let line = unread.line;
    let (z, behind) = text::number(unread.text).ok_or(Refusal::Malformed(line))?;
    let text = text::after_byte(behind, end).ok_or(Refusal::Malformed(line))?;
    Ok((z, Unread { text, line }))
}

// What is left, counted as the next line. The largest number of 64 bits, to which no job counts, stays.
fn next_line(unread: Unread<'_>) -> Unread<'_>
    ensures { NextLine unread.entry result }
{
    Unread {
        text: unread.text,
        line: unread.line.saturating_add(1),
    }
}

// ---- lines

/// Reads the line `area=xlo,ylo,xhi,yhi`. Like each reader below it gives what the line holds and what is left behind it, or refusal 2 or 3
/// with the line's number (RULES "Refusals").
pub fn area_line(unread: Unread<'_>) -> Result<(Rect, Unread<'_>), Refusal>
    ensures { LineAt (row area) unread.entry (reading_of area_numbers result) }
{
    let unread = after(unread, b"area=")?;
    let (xlo, unread) = field(unread, b',')?;
    let (ylo, unread) = field(unread, b',')?;
    let (xhi, unread) = field(unread, b',')?;
    let (yhi, unread) = field(unread, b'\n')?;
    let area = Rect { xlo, ylo, xhi, yhi };
    if !area_in_range(area) {
        return Err(Refusal::OutOfRange(unread.line));
    }
    Ok((area, next_line(unread)))
}

/// Reads the line `axis=a,b`.
pub fn axis_line(unread: Unread<'_>) -> Result<(AxisCosts, Unread<'_>), Refusal>
    ensures { LineAt (row axis) unread.entry (reading_of cost_numbers result) }
{
    let unread = after(unread, b"axis=")?;
    let (x_cost, unread) = field(unread, b',')?;
    let (y_cost, unread) = field(unread, b'\n')?;
    let (Ok(a), Ok(b)) = (u64::try_from(x_cost), u64::try_from(y_cost)) else {
        return Err(Refusal::OutOfRange(unread.line));
    };
    let costs = AxisCosts { a, b };
    if !axis_in_range(costs) {
        return Err(Refusal::OutOfRange(unread.line));
    }
    Ok((costs, next_line(unread)))
}

/// Reads a line `posts=n`, `stops=n` or `rounds=n`: a number from 0 to `most` behind `key`, which holds the `=` too.
pub fn count_line<'a>(
    unread: Unread<'a>,
    key: &[u8],
    most: usize,
) -> Result<(usize, Unread<'a>), Refusal>
    ensures { LineAt (count_row key.now most) unread.entry (reading_of count_numbers result) }
{
    let unread = after(unread, key)?;
    let (z, unread) = field(unread, b'\n')?;
    let Ok(n) = usize::try_from(z) else {
        return Err(Refusal::OutOfRange(unread.line));
    };
    if most < n {
        return Err(Refusal::OutOfRange(unread.line));
    }
    Ok((n, next_line(unread)))
}

/// Reads a line `post=x,y`.
pub fn post_line(unread: Unread<'_>) -> Result<(Place, Unread<'_>), Refusal>
    ensures { LineAt (row post) unread.entry (reading_of place_numbers result) }
{
    let unread = after(unread, b"post=")?;
    let (x, unread) = field(unread, b',')?;
    let (y, unread) = field(unread, b'\n')?;
    let post = Place { x, y };
    if !place_in_range(post) {
        return Err(Refusal::OutOfRange(unread.line));
    }
    Ok((post, next_line(unread)))
}

/// Reads a line `stop=x,y,visits`.
pub fn stop_line(unread: Unread<'_>) -> Result<(Stop, Unread<'_>), Refusal>
    ensures { LineAt (row stop) unread.entry (reading_of stop_numbers result) }
{
    let unread = after(unread, b"stop=")?;
    let (x, unread) = field(unread, b',')?;
    let (y, unread) = field(unread, b',')?;
    let (visits, unread) = field(unread, b'\n')?;
    let place = Place { x, y };
    if !stop_in_range(place, visits) {
        return Err(Refusal::OutOfRange(unread.line));
    }
    let visits = visits as u64;
    Ok((Stop { at: place, visits }, next_line(unread)))
}
