// Functions for tests and benchmarks from Rust, and for nothing else: each reads a job's bytes and answers one number of the job or of
// its deck. Where there is no answer a number stands for it, since the callers are C functions, which give a number.
#![tactic(auto)]

/// A job that was read, with what is asked of its deck.
pub mod opened;

ghost use Rattle.std.specs.Prelude.{◌≡◌, ◌+◌, ◌≤◌, cond, get_or, None};
ghost use Rattle.std.specs.Option.{option_map};
ghost use Rattle.refusal.specs.Refusal.{line_of};
ghost use Rattle.job.specs.Format.{read_job, size_limit};
ghost use Rattle.deck.specs.Values.{axis_of, place_of, rect_of};
ghost use Rattle.trial.specs.Ranges.{rect_allowed};
ghost use Rattle.trial.specs.Opened.{parts_of, opened_record};
ghost use Rattle.trial.specs.Trial.{
  axis_number,
  least,
  minus_one,
  figure_or,
  refusal_numbers,
  reading_numbers,
  before_figure,
  near_at,
  cost_figure,
  load_figure,
  bound_figure,
  cut_axis_figure,
  cut_line_figure,
  corner_bound_figure,
  deck_figures,
  lines_written,
};

use deck::{Axis, Place, Rect};
use opened::Opened;
use refusal::Refusal;

/// Stands for a figure that there is not.
pub const NO_FIGURE: i64 = i64::MIN;

// Stands for a figure that is never below 0, where the job is refused, or the place or rectangle is out of range or empty.
const REFUSED: i64 = -1;

// ---- reading

/// Of a refusal its number, where `which` is 0, and its line, where it is 1. `NO_FIGURE` for any other `which`.
pub fn refusal_figure(why: Refusal, which: u64) -> i64
    requires { line_of why ≤ size_limit + 1 }
    ensures { result ≡ get_or (refusal_numbers why) which least }
{
    match which {
        0 => refusal::number_of(why) as i64,
        1 => refusal::line_of(why) as i64,
        _ => NO_FIGURE,
    }
}

/// Of what reading a job gives, by `which` from 0: the number of the refusal and its line, both 0 for an accepted job; the rounds, −1 for a
/// refused job. `NO_FIGURE` for any other `which`.
pub fn trial_reading(job: &[u8], which: u64) -> i64
    ensures { result ≡ get_or (reading_numbers (read_job job.now)) which least }
{
    match job::read(job) {
        Ok(j) => match which {
            0 => 0,
            1 => 0,
            2 => j.rounds as i64,
            _ => NO_FIGURE,
        },
        Err(why) => match which {
            2 => REFUSED,
            _ => refusal_figure(why, which),
        },
    }
}

// ---- figures of a job's deck, none where the job is refused, or what it is asked of is out of range or empty

// The deck's before, from the record.
fn before(job: &[u8]) -> Option<i64>
    ensures { figure_or minus_one result ≡ before_figure (read_job job.now) }
{
    let o = Opened::of_job(job)?;
    Some(o.deck.before as i64)
}

// The near of stop i, counted from 0, from the record.
fn near(job: &[u8], i: i64) -> Option<i64>
    ensures { figure_or minus_one result ≡ near_at i (read_job job.now) }
{
    let o = Opened::of_job(job)?;
    let i = usize::try_from(i).ok()?;
    let near = o.deck.listed_near().get(i)?;
    Some(*near as i64)
}

// The cost of a place.
fn cost(job: &[u8], at: Place) -> Option<i64>
    ensures { figure_or minus_one result ≡ cost_figure (place_of at) (read_job job.now) }
{
    let o = Opened::of_job(job)?;
    if !opened::place_in_range(at) {
        return None;
    }
    Some(pricing::cost(&o.problem.objects, at) as i64)
}

// The opened job, where the rectangle is allowed.
fn opened_in(job: &[u8], rect: Rect) -> Option<Opened>
    ensures { option_map parts_of result ≡ cond (rect_allowed (rect_of rect)) (opened_record (read_job job.now)) None }
{
    if !opened::rect_allowed(rect) {
        return None;
    }
    Opened::of_job(job)
}

// The load of a rectangle.
fn load(job: &[u8], rect: Rect) -> Option<i64>
    ensures { figure_or minus_one result ≡ load_figure (rect_of rect) (read_job job.now) }
{
    let o = opened_in(job, rect)?;
    Some(corner_bound::load(&o.problem.objects, rect) as i64)
}

// The bound of a rectangle.
fn bound(job: &[u8], rect: Rect) -> Option<i64>
    ensures { figure_or minus_one result ≡ bound_figure (rect_of rect) (read_job job.now) }
{
    let o = opened_in(job, rect)?;
    Some(pricing::bound(&o.problem.objects, rect) as i64)
}

// The corner bound of a rectangle.
fn corner_bound(job: &[u8], rect: Rect) -> Option<i64>
    ensures { figure_or least result ≡ corner_bound_figure (rect_of rect) (read_job job.now) }
{
    let o = opened_in(job, rect)?;
    Some(corner_bound::corner_bound(&o.problem.objects, rect))
}

fn axis_number(axis: Axis) -> i64
    ensures { result ≡ axis_number (axis_of axis) }
{
    match axis {
        Axis::X => 1,
        Axis::Y => 2,
    }
}

// 1 for a cut at an x, 2 for one at a y, 0 for none.
fn cut_axis(job: &[u8], rect: Rect) -> Option<i64>
    ensures { figure_or minus_one result ≡ cut_axis_figure (rect_of rect) (read_job job.now) }
{
    let o = opened_in(job, rect)?;
    match o.cut_of(rect) {
        Some(cut) => Some(axis_number(cut.axis)),
        None => Some(0),
    }
}

// The line of the cut, and none also where there is no cut.
fn cut_line(job: &[u8], rect: Rect) -> Option<i64>
    ensures { figure_or least result ≡ cut_line_figure (rect_of rect) (read_job job.now) }
{
    let o = opened_in(job, rect)?;
    let cut = o.cut_of(rect)?;
    Some(cut.at)
}

/// A figure of the job's deck, by `which` from 0: before, the near of stop `xlo`, counted from 0, the cost of the place (`xlo`, `ylo`); of
/// the rectangle the load, the bound, the axis of its cut (1 at an x, 2 at a y, 0 for no cut), the line of its cut and the corner bound.
/// Where the job is refused, a coordinate is out of range, the rectangle is empty, or there is no such stop or line, `NO_FIGURE` stands for
/// the line and the corner bound, and −1 for the others. `NO_FIGURE` for any other `which`.
pub fn trial_figure(job: &[u8], which: u64, xlo: i64, ylo: i64, xhi: i64, yhi: i64) -> i64
    ensures { result
        ≡ get_or (deck_figures (record { xlo = xlo; ylo = ylo; xhi = xhi; yhi = yhi }) (read_job job.now)) which least }
{
    let rect = Rect { xlo, ylo, xhi, yhi };
    match which {
        0 => before(job).unwrap_or(REFUSED),
        1 => near(job, xlo).unwrap_or(REFUSED),
        2 => cost(job, Place { x: xlo, y: ylo }).unwrap_or(REFUSED),
        3 => load(job, rect).unwrap_or(REFUSED),
        4 => bound(job, rect).unwrap_or(REFUSED),
        5 => cut_axis(job, rect).unwrap_or(REFUSED),
        6 => cut_line(job, rect).unwrap_or(NO_FIGURE),
        7 => corner_bound(job, rect).unwrap_or(NO_FIGURE),
        _ => NO_FIGURE,
    }
}

/// Puts the vertical lines of the job's deck in front of `out`, or the horizontal ones where `across` is false, in increasing order, and
/// says how many there are; what stands behind them stays. −1 where the job is refused or `out` is too short, and then all of `out` stays.
pub fn trial_lines(job: &[u8], across: bool, out: &mut [i64]) -> i64
    ensures { record { result = result; out = out.new } ≡ lines_written across out.old (read_job job.now) }
{
    let Some(o) = Opened::of_job(job) else {
        return REFUSED;
    };
    let p = &o.problem;
    let lines = if across {
        p.vertical.as_slice()
    } else {
        p.horizontal.as_slice()
    };
    let n = lines.len();
    if out.len() < n {
        return REFUSED;
    }
    out[..n].copy_from_slice(lines);
    n as i64
}
