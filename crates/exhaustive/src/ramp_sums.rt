// The ramps of objects along a vertical line, and the costs that follow from their sums.

ghost use Rattle.std.specs.Prelude.{◌≡◌, ◌+◌, ◌*◌, ◌≤◌, ◌<◌, nat_abs, length};
ghost use Rattle.query.specs.Range.{axis_cost_limit, stops_limit};
ghost use Rattle.columns.specs.Ranges.{scaled_limit};
ghost use Rattle.lines.specs.LineRecord.{FirstAtLeast, lines_limit};
ghost use Rattle.exhaustive.specs.Ramps.{scaled_lines, sums_size, ramps_limit};
ghost use Rattle.exhaustive.specs.Ramps.{
  RampSums,
  RampInRange,
  RampPut,
  RampAdded,
  ObjectSums,
  ObjectAdded,
  SumsTo,
  Payable,
  Sweepable,
};
ghost use Rattle.exhaustive.specs.Cheapest.{Swept};

use crate::line_numbers::{NumberedLines, ScaledLines, height};
use columns::scaled;
use limits::LINES;
use numbers::abs_diff;
use reach::Row;

// How many sums of ramps there are: one for each line, and one for the ramps that start above all lines.
pub(crate) const SUMS: usize = LINES + 1;

// Ramps by line: the sum of their weights, and that of their weights times the heights at which they start.
#[derive(Clone, Copy)]
pub(crate) struct Ramps {
    pub(crate) weights: [u64; SUMS],
    pub(crate) starts: [u64; SUMS],
}

impl Ramps {
    // Puts a ramp of weight `w` from `start` on at line k.
    fn put(&mut self, k: usize, start: i64, w: u64)
        requires { RampSums self.old ramps_limit × RampInRange start w × (k ≤ lines_limit) }
        ensures { RampPut k start w self.old self.new }
    {
        self.weights[k] += w;
        self.starts[k] += w * height(start);
    }

    // Adds a ramp of weight `w` from `start` on, at the first line that, scaled, is not below `start`.
    fn add(&mut self, lines: &ScaledLines, start: i64, w: u64)
        requires { RampSums self.old ramps_limit × RampInRange start w }
        ensures { RampAdded (scaled_lines lines.now.divisor.by lines.now.plain.at.now) start w self.old self.new }
    {
        let k = lines.first_from(start);
        self.put(k, start, w);
    }
}

// The ramps that raise the cost, and those that lower it.
#[derive(Clone, Copy)]
pub(crate) struct ObjectRamps {
    pub(crate) up: Ramps,
    pub(crate) down: Ramps,
}

impl ObjectRamps {
    // Adds the ramps of an object along the vertical line that is at `v` when it is scaled. An object that is not nearer to the line than
    // to its closest post has none. `line` is the first line that, scaled, is not below the object.
    pub(crate) fn add_object(&mut self, lines: &ScaledLines, v: i64, object: Row, line: usize)
        requires { (nat_abs v ≤ scaled_limit) × ObjectSums self.old stops_limit
            × FirstAtLeast (scaled_lines lines.now.divisor.by lines.now.plain.at.now) object.y line }
        ensures { ObjectAdded (scaled_lines lines.now.divisor.by lines.now.plain.at.now) v object.x object.y
            (nat_abs object.visits) (nat_abs object.near) self.old self.new }
    {
        let y = object.y as i64;
        let visits = (object.visits as u32) as u64;
        let near = (object.near as u32) as u64;
        let far = abs_diff(object.x as i64, v);
        if near <= far {
            return;
        }
        let r = (near - far) as i64;
        self.down.add(lines, y - r, visits);
        self.up.put(line, y, 2 * visits);
        self.down.add(lines, y + r, visits);
    }

    // Writes the cost of each crossing of the vertical line into `costs`, where b is the axis cost of y.
    pub(crate) fn sweep(&self, lines: &NumberedLines, b: u64, before: u64, costs: &mut [u64; LINES])
        requires { Sweepable (scaled_lines b lines.now.at.now) self.now before × (length costs.old ≡ lines_limit)
            × ((1 ≤ b) × (b ≤ axis_cost_limit)) }
        ensures { Swept lines.now.at.now b self.now before costs.old costs.new }
    {
        let mut sums = RunningSums {
            up: 0,
            up_at: 0,
            down: 0,
            down_at: 0,
        };
        for (k, y) in lines.at.iter().enumerate() {
            sums.add_line(self, k);
            let y = scaled(b as i32, *y);
            let cost = sums.cost_at(before, height(y as i64));
            costs[k] = cost;
        }
    }
}

// The sums of the ramps up to a line.
#[derive(Clone, Copy)]
pub(crate) struct RunningSums {
    pub(crate) up: u64,
    pub(crate) up_at: u64,
    pub(crate) down: u64,
    pub(crate) down_at: u64,
}

impl RunningSums {
    // Adds the ramps of line k to those of the lines before it.
    fn add_line(&mut self, ramps: &ObjectRamps, k: usize)
        requires { SumsTo ramps.now k self.old × ObjectSums ramps.now stops_limit × (k < sums_size) }
        ensures { SumsTo ramps.now (k + 1) self.new }
    {
        self.up += ramps.up.weights[k];
        self.up_at += ramps.up.starts[k];
        self.down += ramps.down.weights[k];
        self.down_at += ramps.down.starts[k];
    }

    // The cost of a place, at height `t` of its line.
    fn cost_at(&self, before: u64, t: u64) -> u64
        requires { Payable before self.now t }
        ensures { result + (self.now.down * t + self.now.up_at)
            ≡ before + (self.now.up * t + self.now.down_at) }
    {
        before + (self.up * t + self.down_at) - (self.down * t + self.up_at)
    }
}
