// Horizontal lines, and which of them is the first that is not below a coordinate.

ghost use Rattle.std.specs.Prelude.{◌≡◌, ◌/◌, ◌≤◌, ◌<ℤ◌, nat_abs, length};
ghost use Rattle.query.specs.Range.{axis_cost_limit};
ghost use Rattle.lines.specs.LineRecord.{FirstAtLeast};
ghost use Rattle.std.proofs.Props.{props};
ghost use mathlib.Core.List.{Pairwise-prop};
ghost use Rattle.exhaustive.specs.Ramps.{table_size, start_limit, height_limit};
ghost use Rattle.exhaustive.specs.Ramps.{height_of, scaled_lines, LinesInRange, Dividing, SlotsFilled, LineTable};

use limits::MOST_COORDINATE;

/// How many slots the table of `number_lines` has: one for each coordinate.
pub const TABLE: usize = 2 * (MOST_COORDINATE as usize) + 1;

// The greatest coordinate, the number of the last slot, and the heights of 0 and of the least coordinate.
const MOST: u64 = MOST_COORDINATE as u64;

const LAST_SLOT: u64 = 2 * MOST;

const BASE: u64 = 1000000;

const LOWEST: u64 = BASE - MOST;

// A number to divide by, and what is multiplied with instead: 2 ^ 32 / by + 1.
#[derive(Clone, Copy)]
pub(crate) struct Divisor {
    pub(crate) by: u64,
    reciprocal: u64,
    ghost dividing: { Dividing by reciprocal },
}

impl Divisor {
    pub(crate) fn new(by: u64) -> Divisor
        requires { (1 ≤ by) × (by ≤ axis_cost_limit) }
        ensures { result.by ≡ by }
    {
        Divisor {
            by,
            reciprocal: 4294967296 / by + 1,
        }
    }

    // n / by. A multiplication is several times faster than a division, of which each object would need two at each vertical line.
    fn divide(self, n: u64) -> u64
        requires { n ≤ height_limit }
        ensures { result ≡ n / self.by }
    {
        n * self.reciprocal / 4294967296
    }
}

// How far a coordinate lies above −1,000,000, which is below every start of a ramp.
pub(crate) fn height(y: i64) -> u64
    requires { nat_abs y ≤ start_limit }
    ensures { result ≡ height_of y }
{
    (y + BASE as i64) as u64
}

// Puts `j` into the slots from `from` on that are before `to`.
fn fill(table: &mut [u16; TABLE], from: usize, to: usize, j: u16)
    requires { (length table.old ≡ table_size) × (from ≤ to) × (to ≤ table_size) }
    ensures { SlotsFilled table.old from to j table.new }
{
    table[from..to].fill(j);
}

/// Makes the table of horizontal lines: for each coordinate where lines can be, from the least on, the number of the first line that is
/// not below it, or the number of lines where all are.
pub fn number_lines(horizontal: &[i64], table: &mut [u16; TABLE])
    requires { LinesInRange horizontal.now × (length table.old ≡ table_size) }
    ensures { LineTable horizontal.now table.new }
{
    let mut from: usize = 0;
    for (j, y) in horizontal.iter().enumerate() {
        let to = (height(*y) - (LOWEST - 1)) as usize;
        fill(table, from, to, j as u16);
        from = to;
    }
    fill(table, from, TABLE, horizontal.len() as u16);
}

/// Horizontal lines, with the table that `number_lines` makes of them.
#[derive(Clone, Copy)]
pub struct NumberedLines<'a> {
    /// Their coordinates, in increasing order.
    pub at: &'a [i64],
    pub table: &'a [u16; TABLE],
    pub ghost in_range: { LinesInRange at.now } by { Prim.hlevel (Pairwise-prop {R = ◌<ℤ◌} (λ a b. Prim.hlevel props), props) },
    pub ghost numbered: { LineTable at.now table.now },
}

// Such lines as the objects meet them: multiplied by the axis cost of y, which is `divisor.by`.
#[derive(Clone, Copy)]
pub(crate) struct ScaledLines<'a> {
    pub(crate) plain: NumberedLines<'a>,
    pub(crate) divisor: Divisor,
}

impl ScaledLines<'_> {
    // The number of the first line that, scaled, is not below `start`, or that of all lines. The table is by plain coordinates, so it is
    // asked for the least one that is not below `start` when it is scaled. Lines are where the table reaches: below it the answer is 0,
    // above it the number of lines.
    pub(crate) fn first_from(&self, start: i64) -> usize
        requires { nat_abs start ≤ start_limit }
        ensures { FirstAtLeast (scaled_lines self.now.divisor.by self.now.plain.at.now) start result }
    {
        let t = height(start);
        let d = self.divisor;
        let lowest = BASE - MOST * d.by;
        if t < lowest {
            return 0;
        }
        let slot = d.divide(t - lowest + d.by - 1);
        if LAST_SLOT < slot {
            return self.plain.at.len();
        }
        self.plain.table[slot as usize] as usize
    }
}
