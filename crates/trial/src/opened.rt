// A job that was read, with its deck prepared for pricing, and what is asked of both: ranges and cuts.
ghost use Rattle.std.specs.Prelude.{◌≡◌};
ghost use Rattle.std.specs.Option.{option_map};
ghost use Rattle.query.specs.Grid.{grid};
ghost use Rattle.job.specs.Format.{read_job};
ghost use Rattle.deck.specs.DeckOf.{deck_of};
ghost use Rattle.deck.specs.Sound.{Sound};
ghost use Rattle.deck.specs.Values.{place_of, rect_of};
ghost use Rattle.reach.specs.Columns.{Ranged};
ghost use Rattle.cuts.specs.CutRecord.{cut_record};
ghost use Rattle.prepare.specs.ProblemRecord.{parts_in, problem_record};
ghost use Rattle.trial.specs.Ranges.{place_in_range, rect_allowed};

use cuts::Cut;
use deck::{Deck, Place, Rect};
use prepare::Problem;

/// The record that a job is read as, and what its deck is for pricing: its objects and its lines.
#[derive(Drop)]
pub struct Opened {
    pub deck: Deck,
    pub problem: Problem,
    pub ghost sound: { Sound deck },
    pub ghost problem_is: { parts_in problem ≡ problem_record (deck_of deck) },
}

impl Opened {
    ghost use Rattle.trial.specs.Opened.{parts_of, opened_record};

    /// Reads a job and prepares its deck. None where the job is refused.
    pub fn of_job(bytes: &[u8]) -> Option<Opened>
        ensures { option_map parts_of result ≡ opened_record (read_job bytes.now) }
    {
        let given = prepare::of_job(bytes).ok()?;
        let job = job::read(bytes).ok()?;
        Some(Opened {
            deck: job.deck,
            problem: given.problem,
        })
    }

    /// The cut of a rectangle by the lines of the deck (RULES "Cuts"). None where it cannot be cut.
    pub fn cut_of(&self, rect: Rect) -> Option<Cut>
        requires { Ranged (rect_of rect) }
        ensures { result ≡ cut_record (grid (deck_of self.now.deck)) (rect_of rect) }
    {
        let p = &self.problem;
        cuts::find_cut(p.vertical.as_slice(), p.horizontal.as_slice(), rect)
    }
}

// ---- ranges

/// Whether both coordinates of a place are in range (RULES "Deck").
pub fn place_in_range(place: Place) -> bool
    ensures { result ≡ place_in_range (place_of place) }
{
    job_line::place_in_range(place)
}

/// Whether all coordinates of a rectangle are in range, and no low edge is above its high one.
pub fn rect_allowed(rect: Rect) -> bool
    ensures { result ≡ rect_allowed (rect_of rect) }
{
    job_line::area_in_range(rect) && !job::empty_area(rect)
}
