// The calls of crate `siting`, for the tests and benchmarks from Rust: each gives one number of the answer, counted from 0, as C functions
// can. Here `report` and `exhaustive`; the others are in `estimates` and `records`.
#![tactic(auto)]

pub mod estimates;
pub mod records;

ghost use Rattle.std.specs.Prelude.{◌+◌, ◌≡◌, ◌≤◌, get_or};
ghost use Rattle.refusal.specs.Refusal.{line_of};
ghost use Rattle.report.specs.Report.{report_state, report_figures};
ghost use Rattle.priced_place.specs.ObjectProblem.{priced_of};
ghost use Rattle.query.specs.Range.{PlaceInRange, FiguresInRange, cost_limit, rounds_limit};
ghost use Rattle.job.specs.Format.{size_limit};
ghost use Rattle.calls.specs.Call.{report_call};
ghost use Rattle.calls.specs.CheapestCall.{exhaustive_call};
ghost use Rattle.trial.specs.Trial.{least};
ghost use Rattle.trial_calls.specs.Calls.{called, state_number, report_numbers, figure_for, spot_numbers, cheapest_figure};
ghost use Rattle.trial_calls.specs.Calls.{refused_numbers};

use calls::Answer;
use priced_place::PricedPlace;
use refusal::Refusal;
use report::{Report, State};
use trial::NO_FIGURE;

// Of a refused call: none of the so many figures that its answer has otherwise, then the number of the refusal and its line. The least
// number where there is no such figure.
fn refused_figure(figures: u64, why: Refusal, which: u64) -> i64
    requires { line_of why ≤ size_limit + 1 }
    ensures { result ≡ get_or (refused_numbers figures why) which least }
{
    if which < figures {
        return NO_FIGURE;
    }
    trial::refusal_figure(why, which - figures)
}

fn state_number(state: State) -> i64
    ensures { result ≡ state_number (report_state state) }
{
    match state {
        State::Done => 0,
        State::Stopped => 1,
    }
}

// A number that a report carries: state, x, y, high, low, before, rounds; then 0 twice, for no refusal. The least number behind them.
fn figure(r: Report, which: u64) -> i64
    requires { FiguresInRange rounds_limit (report_figures r) }
    ensures { result ≡ get_or (report_numbers (report_figures r)) which least }
{
    match which {
        0 => state_number(r.state),
        1 => r.x,
        2 => r.y,
        3 => r.high as i64,
        4 => r.low,
        5 => r.before as i64,
        6 => r.rounds as i64,
        7 | 8 => 0,
        _ => NO_FIGURE,
    }
}

/// A number of the answer of `siting::report`: state (0 done, 1 stopped), x, y, high, low, before, rounds, and the number and the line of
/// the refusal, 0 for a report. The least number where there is none. The cell space and the output are as `siting::report` leaves them.
pub fn trial_report(job: &[u8], cells: &mut [i64], out: &mut [u8], which: u64) -> i64
    ensures { record { result = result; cells = cells.new; out = out.new }
        ≡ called (figure_for which) (report_call job.now cells.old out.old) }
{
    match siting::report(job, cells, out) {
        Answer::Report(r) => figure(r, which),
        Answer::Refused(why) => refused_figure(7, why, which),
    }
}

// A number that goes with the cheapest crossing: x, y, cost; then 0 twice, for no refusal. The least number behind them.
fn spot_figure(s: PricedPlace, which: u64) -> i64
    requires { PlaceInRange (priced_of s).at × (s.cost ≤ cost_limit) }
    ensures { result ≡ get_or (spot_numbers (priced_of s)) which least }
{
    match which {
        0 => s.at.x,
        1 => s.at.y,
        2 => s.cost as i64,
        3 | 4 => 0,
        _ => NO_FIGURE,
    }
}

/// A number of the answer of `siting::exhaustive`: x, y, cost, and the refusal's number and line, 0 for none. The least number where there
/// is none.
pub fn trial_exhaustive(job: &[u8], which: u64) -> i64
    ensures { result ≡ cheapest_figure which (exhaustive_call job.now) }
{
    match siting::exhaustive(job) {
        Ok(s) => spot_figure(s, which),
        Err(why) => refused_figure(3, why, which),
    }
}
