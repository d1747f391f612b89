// The functions of crate `trial` for C, by which the tests and benchmarks call them from Rust.
#![tactic(auto)]

ghost use Rattle.std.specs.Prelude.{◌≡◌, get_or};
ghost use Rattle.job.specs.Format.{read_job};
ghost use Rattle.trial.specs.Trial.{least, reading_numbers, deck_figures, lines_written};

/// Of what reading a job gives, by `which` from 0: the number of the refusal and its line, both 0 for an accepted job; the rounds, −1 for a
/// refused job. The least number of 64 bits for any other `which`.
#[unsafe(no_mangle)]
pub extern "C" fn trial_reading(job: &[u8], which: u64) -> i64
    ensures { result ≡ get_or (reading_numbers (read_job job.now)) which least }
{
    trial::trial_reading(job, which)
}

/// A figure of the job's deck, by `which` from 0: before, the near of stop `xlo`, counted from 0, the cost of the place (`xlo`, `ylo`); of
/// the rectangle the load, the bound, the axis of its cut (1 at an x, 2 at a y, 0 for no cut), the line of its cut and the corner bound.
/// Where the job is refused, a coordinate is out of range, the rectangle is empty, or there is no such stop or line, the least number of 64
/// bits stands for the line and the corner bound, and −1 for the others. The least number for any other `which`.
#[unsafe(no_mangle)]
pub extern "C" fn trial_figure(
    job: &[u8],
    which: u64,
    xlo: i64,
    ylo: i64,
    xhi: i64,
    yhi: i64,
) -> i64
    ensures { result
        ≡ get_or (deck_figures (record { xlo = xlo; ylo = ylo; xhi = xhi; yhi = yhi }) (read_job job.now)) which least }
{
    trial::trial_figure(job, which, xlo, ylo, xhi, yhi)
}

/// Puts the vertical lines of the job's deck in front of `out`, or the horizontal ones where `across` is false, in increasing order, and
/// says how many there are; what stands behind them stays. −1 where the job is refused or `out` is too short, and then all of `out` stays.
#[unsafe(no_mangle)]
pub extern "C" fn trial_lines(job: &[u8], across: bool, out: &mut [i64]) -> i64
    ensures { record { result = result; out = out.new } ≡ lines_written across out.old (read_job job.now) }
{
    trial::trial_lines(job, across, out)
}
