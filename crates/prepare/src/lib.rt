// The problem of a job's deck, prepared once for each call that searches or estimates: its area, its objects and its lines.
#![tactic(auto)]

ghost use Rattle.std.specs.Prelude.{◌≡◌};
ghost use Rattle.deck.specs.DeckOf.{deck_of};
ghost use Rattle.deck.specs.Sound.{Sound};
ghost use Rattle.job.specs.Format.{read_job};
ghost use Rattle.prepare.specs.ProblemRecord.{parts_in, problem_record, given_by, given_for};

use deck::{Axis, Deck, Rect};
use lines::Lines;
use reach::Objects;
use refusal::Refusal;

/// What a search needs of a deck: its area, its objects with the axis costs, and the lines of both axes (RULES "Lines").
#[derive(Drop)]
pub struct Problem {
    pub area: Rect,
    pub objects: Objects,
    pub vertical: Lines,
    pub horizontal: Lines,
}

/// What an accepted job gives: its number of rounds, before (RULES "Cost"), and the problem of its deck.
#[derive(Drop)]
pub struct PreparedJob {
    pub rounds: u64,
    pub before: u64,
    pub problem: Problem,
}

// The problem of a deck. Not inlined, so that what it is made of is gone from the stack when a search runs.
#[inline(never)]
fn of_deck(deck: &Deck) -> Problem
    requires { Sound deck.now }
    ensures { parts_in result ≡ problem_record (deck_of deck.now) }
{
    let area = deck.area;
    let stops = deck.listed_stops();
    let objects = Objects::of_stops(deck.axis, stops, deck.listed_near());
    let flags = reach::reach_flags(&objects, area);
    let vertical = lines::find_lines(stops, &flags, area, Axis::X);
    let horizontal = lines::find_lines(stops, &flags, area, Axis::Y);
    Problem {
        area,
        objects,
        vertical,
        horizontal,
    }
}

/// Reads a job and prepares its problem, or gives the job's own refusal (RULES "Refusals"). near and before are those of the record that
/// was read.
// Not inlined, so that the job's record is gone from the stack when a search runs.
#[inline(never)]
pub fn of_job(bytes: &[u8]) -> Result<PreparedJob, Refusal>
    ensures { given_by result ≡ given_for (read_job bytes.now) }
{
    let job = job::read(bytes)?;
    let problem = of_deck(&job.deck);
    Ok(PreparedJob {
        rounds: job.rounds,
        before: job.deck.before,
        problem,
    })
}
