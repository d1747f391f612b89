// The entry for C (RULES "Calls"), as include/siting.h describes it.
#![tactic(auto)]

ghost use Rattle.std.specs.Prelude.{◌≡◌};
ghost use Rattle.calls.specs.Entry.{entry};

/// Writes the report of a job's bytes to the start of the output, and gives how many bytes it has; or minus the number of the refusal, 1 to
/// 6 or 8, and the output as it was.
#[unsafe(no_mangle)]
pub extern "C" fn siting_report(job: &[u8], out: &mut [u8]) -> i64
    ensures { record { result = result; out = out.new } ≡ entry job.now out.old }
{
    siting::siting_report(job, out)
}
