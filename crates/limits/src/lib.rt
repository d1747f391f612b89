// The limits of RULES "Deck", "Refusals" and "Calls", and the sizes of arrays that follow from them. The definitions have them in
// query/specs/Range.antt, columns/specs/Columns.antt, job/specs/Format.antt, report/specs/Limits.antt and cells/specs/Numbering.antt.
#![tactic(auto)]

/// The most bytes of a job: a longer one is refused with refusal 1.
pub const JOB_BYTES: usize = 16384;

/// The bytes of output that hold every report: fewer are refused with refusal 8.
pub const REPORT_BYTES: usize = 128;

/// The least coordinate, in tenths of a millimetre.
pub const LEAST_COORDINATE: i64 = -20000;

/// The greatest coordinate, in tenths of a millimetre.
pub const MOST_COORDINATE: i64 = 20000;

/// The most visits of a stop; the fewest are 1.
pub const MOST_VISITS: i64 = 65535;

/// The most rounds that a job asks for.
pub const MOST_ROUNDS: usize = 1000;

/// The greatest axis cost, for each tenth of a millimetre along an axis; the least is 1.
pub const MOST_AXIS_COST: u64 = 9;

/// The most posts of a deck.
pub const POSTS: usize = 64;

/// The most stops of a deck.
pub const STOPS: usize = 512;

/// The most lines of one axis: one for each stop, and the two edges of the area.
pub const LINES: usize = STOPS + 2;

/// How many numbers the array has that pricing reads: four columns, of which each has `STOPS` numbers, and the two axis costs behind them.
/// The column of x starts at 0.
pub const COLUMNS: usize = 4 * STOPS + 2;

/// Where in that array the column of y starts.
pub const Y_COLUMN: usize = STOPS;

/// Where the column of visits starts.
pub const VISITS_COLUMN: usize = 2 * STOPS;

/// Where the column of near starts.
pub const NEAR_COLUMN: usize = 3 * STOPS;

/// Where the axis cost of x stands.
pub const X_COST: usize = 4 * STOPS;

/// Where the axis cost of y stands.
pub const Y_COST: usize = 4 * STOPS + 1;

/// The most cells that are live at once: the area's, and one more with each round.
pub const CELLS: usize = MOST_ROUNDS + 1;

/// How many numbers of the cell space a cell takes: its four edges and its bound.
pub const CELL_NUMBERS: usize = 5;
