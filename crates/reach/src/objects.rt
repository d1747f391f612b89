// The objects of a deck in columns, with the axis costs behind them (RULES "Deck", "Travel").

ghost use Rattle.std.specs.Prelude.{◌≡◌, ◌<◌, map, length};
ghost use Rattle.deck.specs.Values.{held_axis, stop_of};
ghost use Rattle.columns.specs.Objects.{stored_pricing};
ghost use Rattle.columns.specs.ObjectColumns.{object_at, axis_in, columns_of};
ghost use Rattle.deck.specs.Ranges.{CostsInRange, StopsInRange, NearsInRange};
ghost use Rattle.reach.specs.Columns.{ObjectInRange, Priceable};

use columns::put_columns;
use deck::{AxisCosts, Stop};
use limits::{COLUMNS, NEAR_COLUMN, VISITS_COLUMN, X_COST, Y_COLUMN, Y_COST};

/// One object: a stop at its scaled place, whose coordinates are multiplied by the costs of their axes, with its visits and its near.
#[derive(Clone, Copy)]
pub struct Row {
    pub x: i32,
    pub y: i32,
    pub visits: i32,
    pub near: i32,
    pub ghost in_range: { ObjectInRange x y visits near },
}

/// The objects of a deck at scaled places, and its axis costs: what pricing reads.
#[derive(Drop)]
pub struct Objects {
    // the rows of the columns that count
    count: usize,
    columns: [i32; COLUMNS],
    pub ghost priceable: { Priceable columns count },
}

impl Objects {
    ghost use Rattle.reach.specs.Held.{object_of_row, columns_of_objects, count_of_objects, AxisOf};

    /// The objects of stops, each with the near at its index, under these axis costs.
    // Not inlined, so that a caller's frame has no second array of columns.
    #[inline(never)]
    pub fn of_stops(axis: AxisCosts, stops: &[Stop], near: &[u64]) -> Objects
        requires { CostsInRange (held_axis axis) × StopsInRange stops.now × NearsInRange near.now (length near.now)
            × (length near.now ≡ length stops.now) }
        ensures { (columns_of_objects result ≡ columns_of (stored_pricing (held_axis axis) (map stop_of stops.now) near.now))
            × (count_of_objects result ≡ length stops.now) }
    {
        let mut columns = [0i32; COLUMNS];
        put_columns(axis, stops, near, &mut columns);
        Objects {
            count: stops.len(),
            columns,
        }
    }

    /// How many objects there are.
    pub fn count(&self) -> usize
        ensures { result ≡ count_of_objects self.now }
    {
        self.count
    }

    /// The axis costs of the deck.
    pub fn axis(&self) -> AxisCosts
        ensures { AxisOf (axis_in (columns_of_objects self.now)) result }
    {
        AxisCosts {
            a: (self.columns[X_COST] as u32) as u64,
            b: (self.columns[Y_COST] as u32) as u64,
        }
    }

    /// The object in the row `index`, counted from 0.
    pub fn row(&self, index: usize) -> Row
        requires { index < count_of_objects self.now }
        ensures { object_of_row result ≡ object_at (columns_of_objects self.now) index }
    {
        Row {
            x: self.columns[index],
            y: self.columns[Y_COLUMN + index],
            visits: self.columns[VISITS_COLUMN + index],
            near: self.columns[NEAR_COLUMN + index],
        }
    }
}
