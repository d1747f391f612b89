// What a job needs (RULES "Change 3"), from the lines of its deck and its rounds. No place is priced for it: of the crates that
// crates.txt lets this one use, `calls` gives a type and definitions, and no other prices.
#![tactic(auto)]

ghost use Rattle.std.specs.Prelude.{◌≡◌};
ghost use Rattle.calls.specs.Answers.{estimate_numbers, estimated_answer};
ghost use Rattle.calls.specs.EstimateCall.{estimate_call};
ghost use Rattle.estimate.specs.LineCounts.{LineCounts, estimate_by, GivenCounts, given_estimate};

use calls::Estimate;
use prepare::PreparedJob;
use refusal::Refusal;

/// The estimate by how many vertical and horizontal lines there are (RULES "Lines"), and by the rounds of the job.
pub fn of_lines(vertical_lines: usize, horizontal_lines: usize, rounds: u64) -> Estimate
    requires { LineCounts vertical_lines horizontal_lines rounds }
    ensures { estimate_numbers result ≡ estimate_by vertical_lines horizontal_lines rounds }
{
    let across = lines::gaps(vertical_lines);
    let deep = lines::gaps(horizontal_lines);
    let product = across * deep;
    let most = rounds + 1;
    let cells = most.min(product);
    Estimate {
        across,
        deep,
        limit: product - 1,
        cells,
    }
}

/// The estimate of a prepared job (`prepare::of_job`).
pub fn of_given(given: &PreparedJob) -> Estimate
    requires { GivenCounts given.now }
    ensures { estimate_numbers result ≡ given_estimate given.now }
{
    let problem = &given.problem;
    of_lines(
        problem.vertical.len(),
        problem.horizontal.len(),
        given.rounds,
    )
}

/// The estimate of a job, or its own refusal (RULES "Refusals").
pub fn of_job(job: &[u8]) -> Result<Estimate, Refusal>
    ensures { estimated_answer result ≡ estimate_call job.now }
{
    let given = prepare::of_job(job)?;
    Ok(of_given(&given))
}
