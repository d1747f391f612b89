// The function of crate `kernels` for C, by which the benchmarks call it from Rust.
#![tactic(auto)]

ghost use Rattle.std.specs.Prelude.{◌≡◌};
ghost use Rattle.job.specs.Format.{read_job};
ghost use Rattle.kernels.specs.Sums.{kernel_sum};

/// What a kernel gives over so many turns, summed, by its number: 0 cost, 1 load, 2 bound, 3 whether there is a cut at a line above 0,
/// 4 the near of a stop, with that of all stops found anew at each turn, 5 whether the corner bound is above 0. −1 where the job is refused
/// or there are more than 100,000 turns, and the least number of 64 bits where no kernel has the number.
#[unsafe(no_mangle)]
pub extern "C" fn kernel_sum(job: &[u8], which: u64, turns: u64) -> i64
    ensures { result ≡ kernel_sum which turns (read_job job.now) }
{
    kernels::kernel_sum(job, which, turns)
}
