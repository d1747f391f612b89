// The call `siting::estimate`, for the tests and benchmarks from Rust: one number of the answer.
ghost use Rattle.std.specs.Prelude.{◌≡◌, get_or};
ghost use Rattle.calls.specs.Answers.{estimate_numbers};
ghost use Rattle.calls.specs.EstimateCall.{estimate_call};
ghost use Rattle.trial.specs.Trial.{least};
ghost use Rattle.trial_calls.specs.Estimates.{SmallEstimate, needs_numbers, estimate_figure};

use crate::refused_figure;
use calls::Estimate;
use trial::NO_FIGURE;

// A number of an estimate: gaps across, gaps deep, cut limit, cells; then 0 twice, for no refusal. The least number behind them.
fn needs_figure(e: Estimate, which: u64) -> i64
    requires { SmallEstimate (estimate_numbers e) }
    ensures { result ≡ get_or (needs_numbers (estimate_numbers e)) which least }
{
    match which {
        0 => e.across as i64,
        1 => e.deep as i64,
        2 => e.limit as i64,
        3 => e.cells as i64,
        4 | 5 => 0,
        _ => NO_FIGURE,
    }
}

/// A number of the answer of `siting::estimate`: gaps across, gaps deep, cut limit, cells, and the refusal's number and line, 0 for none.
/// The least number where there is none.
pub fn trial_estimate(job: &[u8], which: u64) -> i64
    ensures { result ≡ estimate_figure which (estimate_call job.now) }
{
    match siting::estimate(job) {
        Ok(e) => needs_figure(e, which),
        Err(why) => refused_figure(4, why, which),
    }
}
