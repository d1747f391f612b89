// What a report carries, and the text of a report and of a refusal.
#![tactic(auto)]

ghost use Rattle.std.specs.Prelude.{◌+◌, ◌≤◌, [], ◌∷◌, ◌++◌, length};
ghost use Rattle.refusal.specs.Refusal.{number_of, line_of};
ghost use Rattle.text.specs.Ascii.{bytes, comma};
ghost use Rattle.text.specs.Decimal.{spell_nat, spell_int};
ghost use Rattle.write.specs.Written.{HasRoom, Overwrote, Wrote};
ghost use Rattle.report.specs.Report.{report_state, report_figures};
ghost use Rattle.report.specs.Text.{state_text, report_text, refusal_text};
ghost use Rattle.report.specs.Limits.{output_size};
ghost use Rattle.query.specs.Range.{rounds_limit, FiguresInRange};

use refusal::Refusal;
use write::{Decimal, Writer};

/// How a search ended (RULES "Figures").
#[derive(Clone, Copy, PartialEq, Eq)]
pub enum State {
    /// No cell is live: the place is the best of the area.
    Done,
    /// The rounds are used up, and cells are live.
    Stopped,
}

/// The figures of a report (RULES "Figures").
#[derive(Clone, Copy, PartialEq, Eq)]
pub struct Report {
    pub state: State,
    /// The place found, in tenths of a millimetre.
    pub x: i64,
    pub y: i64,
    /// The cost of that place.
    pub high: u64,
    /// What every place of the area costs at least. It is never negative.
    pub low: i64,
    /// The cost without a new post.
    pub before: u64,
    /// The cuts made.
    pub rounds: u64,
}

// A key and a number behind it.
fn put_key<T: Decimal>(w: &mut Writer, key: &[u8], number: T)
    requires { HasRoom w.old (length key.now + length (T.spelling number)) }
    ensures { Wrote w.old (key.now ++ T.spelling number) w.new }
{
    w.put(key);
    w.put_decimal(number);
}

// The lines of a report, each but for its byte 10, which stands before the next one's key.
fn put_state(w: &mut Writer, state: State)
    requires { HasRoom w.old 13 }
    ensures { Wrote w.old (bytes "state=" ++ state_text (report_state state)) w.new }
{
    w.put(b"state=");
    match state {
        State::Done => w.put(b"done"),
        State::Stopped => w.put(b"stopped"),
    }
}

fn put_place(w: &mut Writer, x: i64, y: i64)
    requires { HasRoom w.old 47 }
    ensures { Wrote w.old (bytes "\nat=" ++ spell_int x ++ (comma ∷ []) ++ spell_int y) w.new }
{
    put_key(w, b"\nat=", x);
    put_key(w, b",", y);
}

fn put_costs(w: &mut Writer, high: u64, low: i64, before: u64)
    requires { HasRoom w.old 80 }
    ensures { Wrote w.old (bytes "\nhigh=" ++ spell_nat high ++ bytes "\nlow=" ++ spell_int low ++ bytes "\nbefore="
        ++ spell_nat before) w.new }
{
    put_key(w, b"\nhigh=", high);
    put_key(w, b"\nlow=", low);
    put_key(w, b"\nbefore=", before);
}

/// Writes a report's lines (RULES "Report") to the start of the output, and gives how many bytes they have. Bytes behind them stay.
pub fn write_report(out: &mut [u8], report: Report) -> usize
    requires in_bounds { output_size ≤ length out.old }
    requires figures_in_range { FiguresInRange rounds_limit (report_figures report) }
    ensures { Overwrote out.old (report_text (report_figures report)) out.new result }
{
    let mut w = Writer::new(out);
    put_state(&mut w, report.state);
    put_place(&mut w, report.x, report.y);
    put_costs(&mut w, report.high, report.low, report.before);
    put_key(&mut w, b"\nrounds=", report.rounds);
    w.put(b"\n");
    w.len()
}

/// Writes the two lines of a refusal (RULES "Report") to the start of an output of at least 64 bytes, and gives how many bytes they
/// have. Bytes behind them stay.
pub fn write_refusal(out: &mut [u8], why: Refusal) -> usize
    requires { 64 ≤ length out.old }
    ensures { Overwrote out.old (refusal_text (number_of why) (line_of why)) out.new result }
{
    let number = refusal::number_of(why);
    let line = refusal::line_of(why);
    let mut lines = Writer::new(out);
    put_key(&mut lines, b"refused=", number);
    put_key(&mut lines, b"\nline=", line);
    lines.put(b"\n");
    lines.len()
}
