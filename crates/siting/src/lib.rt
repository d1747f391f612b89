// The public calls of the siting tool (RULES "Calls"); crate `calls` defines what they answer.
#![tactic(auto)]

ghost use Rattle.std.specs.Prelude.{◌≤◌, ◌≡◌, length};
ghost use Rattle.calls.specs.Answers.{report_answer, cheapest_answer, estimated_answer, read_answer, written_answer, change_answer};
ghost use Rattle.calls.specs.Call.{report_call, own_space};
ghost use Rattle.calls.specs.Entry.{entry};
ghost use Rattle.calls.specs.Program.{answer_text};
ghost use Rattle.calls.specs.CheapestCall.{exhaustive_call};
ghost use Rattle.calls.specs.EstimateCall.{estimate_call};
ghost use Rattle.calls.specs.ReadCall.{read_call};
ghost use Rattle.calls.specs.WriteCall.{write_call};
ghost use Rattle.calls.specs.ChangeCall.{change_call};
ghost use Rattle.change.specs.Change.{add_post, remove_post, add_stop, remove_stop};
ghost use Rattle.deck.specs.Values.{place_of, stop_of};
ghost use Rattle.report.specs.Limits.{output_size};
ghost use Rattle.siting.specs.Response.{state_for, OfJob, found_in, Reported, Responded, RespondedAlone};

use calls::{Answer, Estimate, Text};
use deck::{Deck, Place, Stop};
use job::Job;
use limits::{CELL_NUMBERS, REPORT_BYTES};
use prepare::PreparedJob;
use priced_place::PricedPlace;
use refusal::Refusal;
use report::{Report, State};
use search::run;
use search::run::Found;

// A report, and how many bytes its text has.
#[derive(Clone, Copy)]
struct Response {
    report: Report,
    bytes: usize,
}

fn state_of(done: bool) -> State
    ensures { result ≡ state_for done }
{
    if done { State::Done } else { State::Stopped }
}

// Writes the report of what a search of the prepared problem has found to the start of the output.
fn report_found(given: &PreparedJob, found: Found, out: &mut [u8]) -> Response
    requires { OfJob given.now × (found ≡ found_in given.now) × (output_size ≤ length out.old) }
    ensures { Reported given.now out.old out.new result }
{
    let state = state_of(found.done);
    let report = Report {
        state,
        x: found.best.at.x,
        y: found.best.at.y,
        high: found.best.cost,
        low: found.low,
        before: given.before,
        rounds: found.cuts,
    };
    let bytes = report::write_report(out, report);
    Response { report, bytes }
}

// What the public call `report` answers. Refusals 7 and 8 come before any place is priced. A refusal leaves the cell space and the output
// as they were.
fn respond(job: &[u8], cells: &mut [i64], out: &mut [u8]) -> Result<Response, Refusal>
    ensures { Responded (report_call job.now cells.old out.old) out.old cells.new
        out.new result }
{
    let given = prepare::of_job(job)?;
    let needs = estimate::of_given(&given);
    if (cells.len() as u64) < CELL_NUMBERS as u64 * needs.cells {
        return Err(Refusal::SmallSpace);
    }
    if out.len() < REPORT_BYTES {
        return Err(Refusal::ShortOutput);
    }
    let found = run::search_into(&given.problem, given.before, given.rounds, cells);
    Ok(report_found(&given, found, out))
}

// What the C entry and the program answer, as if with a cell space of their own, which is enough for every job.
fn respond_alone(job: &[u8], out: &mut [u8]) -> Result<Response, Refusal>
    ensures { RespondedAlone (report_call job.now own_space out.old) out.old out.new result }
{
    let given = prepare::of_job(job)?;
    if out.len() < REPORT_BYTES {
        return Err(Refusal::ShortOutput);
    }
    let found = run::search(&given.problem, given.before, given.rounds);
    Ok(report_found(&given, found, out))
}

/// Searches a job's area (RULES "Calls", "Refusals"): the report, with its text at the start of the output, which ends with its sixth byte
/// 10, and its live cells in the cell space with 0 behind them; or the first refusal that applies, the job's own, 7 or 8, and both as they
/// were. The cell space that is enough for a job is five numbers for each of the `cells` that `estimate` gives, and the output
/// `limits::REPORT_BYTES` bytes.
pub fn report(job: &[u8], cells: &mut [i64], out: &mut [u8]) -> Answer
    ensures { record { answer = report_answer result; cells = cells.new; out = out.new }
        ≡ report_call job.now cells.old out.old }
{
    match respond(job, cells, out) {
        Ok(response) => Answer::Report(response.report),
        Err(why) => Answer::Refused(why),
    }
}

/// The entry for C, which `siting_c` exports (RULES "Calls"): writes the report's text as `report` does where it is lent enough cell
/// space, and gives how many bytes it has written; or minus the number of the refusal, the job's own or 8, and leaves the output as it was.
pub fn siting_report(job: &[u8], out: &mut [u8]) -> i64
    ensures { record { result = result; out = out.new } ≡ entry job.now out.old }
{
    match respond_alone(job, out) {
        Ok(response) => response.bytes as i64,
        Err(why) => -(refusal::number_of(why) as i64),
    }
}

/// The cheapest crossing of lines, the earliest of equals, with its cost (RULES "Exhaustive search"), or the job's own refusal. No
/// place of the area is better. The rounds of the job play no part.
pub fn exhaustive(job: &[u8]) -> Result<PricedPlace, Refusal>
    ensures { cheapest_answer result ≡ exhaustive_call job.now }
{
    let prepared = prepare::of_job(job)?;
    Ok(exhaustive::cheapest(&prepared.problem, prepared.before))
}

/// What the job needs (RULES "Change 3"), or its own refusal. It prices no place.
pub fn estimate(job: &[u8]) -> Result<Estimate, Refusal>
    ensures { estimated_answer result ≡ estimate_call job.now }
{
    estimate::of_job(job)
}

/// The record of the deck and the rounds that a job's bytes spell (RULES "Job"), or the job's own refusal.
pub fn read(job: &[u8]) -> Result<Job, Refusal>
    ensures { read_answer result ≡ read_call job.now }
{
    job::read(job)
}

/// Writes the job of a record and rounds (RULES "Change 1") to the start of the output, and gives how many bytes it has; or the first
/// refusal that applies: the number and line that the text of this job's bytes would get in reading, or 8 where it does not fit. Bytes
/// behind the job stay; after a refusal every byte does. Near and before of the record do not count.
pub fn write(deck: &Deck, rounds: u64, out: &mut [u8]) -> Result<usize, Refusal>
    ensures { record { answer = written_answer result; out = out.new } ≡ write_call deck.now rounds out.old }
{
    job_check::check(deck, rounds)?;
    if out.len() < job_file::file_len(deck, rounds) {
        return Err(Refusal::ShortOutput);
    }
    Ok(job_file::put_file(deck, rounds, out))
}

/// Adds a post behind the last (RULES "Change 6"); near and before follow. Refusal 3 where the place is out of range or the record cannot
/// be changed, 10 where it has 64 posts; each leaves the record as it was.
pub fn add_post(deck: &mut Deck, post: Place) -> Result<(), Refusal>
    ensures { record { answer = change_answer result; deck = deck.new } ≡ change_call deck.old (add_post (place_of post)) }
{
    change::add_post(deck, post)
}

/// Removes the first post at this place (RULES "Change 6"): the later ones move up; near and before follow. Refusal 3 where the place is
/// out of range or the record cannot be changed, 9 where no post is there, 5 where it is the only post; each leaves the record as it was.
pub fn remove_post(deck: &mut Deck, post: Place) -> Result<(), Refusal>
    ensures { record { answer = change_answer result; deck = deck.new } ≡ change_call deck.old (remove_post (place_of post)) }
{
    change::remove_post(deck, post)
}

/// Adds a stop behind the last, with its near (RULES "Change 6"); before follows. Refusal 3 where a value of it is out of range or the
/// record cannot be changed, 10 where it has 512 stops; each leaves the record as it was.
pub fn add_stop(deck: &mut Deck, stop: Stop) -> Result<(), Refusal>
    ensures { record { answer = change_answer result; deck = deck.new } ≡ change_call deck.old (add_stop (stop_of stop)) }
{
    change::add_stop(deck, stop)
}

/// Removes the first stop with this place and these visits (RULES "Change 6"): the later ones move up with their near; before follows.
/// Refusal 3 where a value is out of range or the record cannot be changed, 9 where no stop has these values, 6 where it is the only stop;
/// each leaves the record as it was.
pub fn remove_stop(deck: &mut Deck, stop: Stop) -> Result<(), Refusal>
    ensures { record { answer = change_answer result; deck = deck.new } ≡ change_call deck.old (remove_stop (stop_of stop)) }
{
    change::remove_stop(deck, stop)
}

/// What the program prints for its input (RULES "Report"): the report's lines, or the two lines of the job's own refusal.
pub fn answer_text(job: &[u8]) -> Text
    ensures whole { result ≡ answer_text job.now }
    ensures short { length result ≤ output_size }
{
    let mut bytes = [0u8; REPORT_BYTES];
    match respond_alone(job, &mut bytes) {
        Ok(response) => Text::new(bytes, response.bytes),
        Err(why) => {
            let length = report::write_refusal(&mut bytes, why);
            Text::new(bytes, length)
        }
    }
}
