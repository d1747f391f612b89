// The choice of a cut (RULES "Cuts").
#![tactic(auto)]

ghost use Rattle.std.specs.Prelude.{◌≡◌, ◌≤◌, length, ◌+ℤ◌, ◌-ℤ◌};
ghost use Rattle.numbers.specs.Integer.{half_up, strictly_between};
ghost use Rattle.numbers.specs.Lists.{keep, non_empty};
ghost use Rattle.query.specs.Cut.{can_cut};
ghost use Rattle.query.specs.Range.{RectInRange};
ghost use Rattle.deck.specs.Values.{rect_of};
ghost use Rattle.lines.specs.LineRecord.{LinesInOrder, Lined, grid_of};
ghost use Rattle.cuts.specs.CutRecord.{Edges, LineBefore, LineFrom, line_inside, cut_along, cut_record, first_of};
ghost use Rattle.lines.proofs.OneProof.{in_order_prop};

use deck::{Axis, Rect};
use lines::first_at_least;

/// A cut of a cell at one line: on axis x at the x `at`, on axis y at the y `at`, in tenths of a millimetre.
#[derive(Clone, Copy)]
pub struct Cut {
    pub axis: Axis,
    pub at: i64,
}

// A cell along an axis: the lines of the axis, and the cell's edges.
#[derive(Clone, Copy)]
struct Side<'a> {
    axis: Axis,
    lines: &'a [i64],
    lo: i64,
    hi: i64,
    ghost in_order: { LinesInOrder lines.now } by { in_order_prop lines.now },
    ghost edges: { Edges lo hi },
}

impl<'a> Side<'a> {
    fn length(&self) -> i64
        ensures { result ≡ self.now.hi -ℤ self.now.lo }
    {
        self.hi - self.lo
    }

    // The middle of the edges, rounded up.
    fn middle(&self) -> i64
        ensures { result ≡ half_up (self.now.lo +ℤ self.now.hi) }
    {
        // A shift takes no test of the sign, as `numbers::half_up` does, with which the choice of a cut takes 48 ns in place of 41.
        (self.lo + self.hi + 1) >> 1
    }

    // The line before index `at`, or the low edge where that is greater or there is none.
    fn line_before(&self, at: usize) -> i64
        requires { at ≤ length self.now.lines.now }
        ensures { LineBefore self.now.lines.now at self.now.lo result }
    {
        let lo = self.lo;
        self.lines[..at].last().map_or(lo, |line| lo.max(*line))
    }

    // The line at index `at`, or the high edge where that is smaller or there is none.
    fn line_from(&self, at: usize) -> i64
        ensures { LineFrom self.now.lines.now at self.now.hi result }
    {
        let hi = self.hi;
        self.lines.get(at).map_or(hi, |line| hi.min(*line))
    }

    // Among the lines strictly between the edges the closest to their middle, and of two that are equally close the smaller. It is the
    // last before the middle or the first from it on; an edge stands for one that does not lie between.
    fn middle_line(&self) -> Option<i64>
        ensures { result
            ≡ line_inside self.now.lo self.now.hi
            (keep (strictly_between self.now.lo self.now.hi) self.now.lines.now) }
    {
        let at = first_at_least(self.lines, self.middle());
        let below = self.line_before(at);
        let above = self.line_from(at);
        let line = if self.lo + self.hi <= below + above {
            below
        } else {
            above
        };
        if self.lo < line { Some(line) } else { None }
    }

    // The cut at that line.
    fn cut(&self) -> Option<Cut>
        ensures { result
            ≡ cut_along self.now.axis self.now.lo self.now.hi
            (keep (strictly_between self.now.lo self.now.hi) self.now.lines.now) }
    {
        let at = self.middle_line()?;
        Some(Cut {
            axis: self.axis,
            at,
        })
    }
}

// The cut along the first axis, if some line lies inside there; else that along the second.
fn first_of(first: &Side<'_>, second: &Side<'_>) -> Option<Cut>
    ensures { result
        ≡ first_of (cut_along first.now.axis first.now.lo first.now.hi
        (keep (strictly_between first.now.lo first.now.hi) first.now.lines.now))
        (cut_along second.now.axis second.now.lo second.now.hi
        (keep (strictly_between second.now.lo second.now.hi) second.now.lines.now)) }
{
    // No `or_else`: nothing is inferred of a closure that takes in a `Side`, which has ghost fields.
    match first.cut() {
        Some(cut) => Some(cut),
        None => second.cut(),
    }
}

/// Where the cell `rectangle` is cut, among the vertical and the horizontal lines (RULES "Cuts"); `None` where no line lies strictly inside
/// it. Sides are compared in tenths of a millimetre, whatever the axis costs.
pub fn find_cut<'a>(vertical: &'a [i64], horizontal: &'a [i64], rectangle: Rect) -> Option<Cut>
    requires { Lined vertical.now horizontal.now × RectInRange (rect_of rectangle) }
    ensures { result ≡ cut_record (grid_of vertical.now horizontal.now) (rect_of rectangle) }
{
    let across = Side {
        axis: Axis::X,
        lines: vertical,
        lo: rectangle.xlo,
        hi: rectangle.xhi,
    };
    let deep = Side {
        axis: Axis::Y,
        lines: horizontal,
        lo: rectangle.ylo,
        hi: rectangle.yhi,
    };
    if deep.length() <= across.length() {
        first_of(&across, &deep)
    } else {
        first_of(&deep, &across)
    }
}

// Whether some line lies strictly between two edges: the first one above the low edge then lies below the high one.
fn line_between(lines: &[i64], low: i64, high: i64) -> bool
    requires { LinesInOrder lines.now × Edges low high }
    ensures { result ≡ non_empty (keep (strictly_between low high) lines.now) }
{
    let at = first_at_least(lines, low + 1);
    at < lines.len() && lines[at] < high
}

/// Whether the cell `rectangle` can be cut (RULES "Cuts"): one of the vertical or of the horizontal lines lies strictly inside it. It is so
/// where `find_cut` finds a cut, which takes longer.
pub fn can_cut(vertical: &[i64], horizontal: &[i64], rectangle: Rect) -> bool
    requires { Lined vertical.now horizontal.now × RectInRange (rect_of rectangle) }
    ensures { result ≡ can_cut (grid_of vertical.now horizontal.now) (rect_of rectangle) }
{
    line_between(vertical, rectangle.xlo, rectangle.xhi)
        || line_between(horizontal, rectangle.ylo, rectangle.yhi)
}
