// The kernels of pricing over many places and rectangles, for the benchmarks: the job is read once, and the loop over the turns runs here.
#![tactic(auto)]

ghost use Rattle.std.specs.Prelude.{◌≡◌, ℕ, ◌*◌, ◌≤◌};
ghost use Rattle.query.specs.Deck as Query;
ghost use Rattle.query.specs.Range.{coordinate_limit, cost_limit};
ghost use Rattle.job.specs.Format.{read_job};
ghost use Rattle.deck.specs.DeckOf.{deck_of};
ghost use Rattle.pricing.specs.ObjectFigures.{Figure};
ghost use Rattle.trial.specs.Trial.{minus_one, figure_or};
ghost use Rattle.kernels.specs.Sums.{
  sum_to,
  turns_limit,
  Sampled,
  TurnPlace,
  TurnRect,
  positive,
  cost_turn,
  load_turn,
  bound_turn,
  cut_turn,
  near_turn,
  corner_bound_turn,
  turn,
  kernel_sum,
};

use deck::{Place, Rect};
use limits::{MOST_COORDINATE, STOPS};
use trial::NO_FIGURE;
use trial::opened::Opened;

// The turns of which the figures are summed, at most.
const MOST_TURNS: u64 = 100000;

// A coordinate for each turn.
fn sample(t: u64, factor: u64, less: u64) -> i64
    requires { (factor ≤ 65536) × (less ≤ coordinate_limit) }
    ensures { Sampled t factor less result }
{
    ((t % 65536) * factor % (MOST_COORDINATE as u64 + 1)) as i64 - less as i64
}

fn positive(z: i64) -> u64
    ensures { Figure (positive z) 1 result }
{
    u64::from(0 < z)
}

// The place of a turn.
fn turn_place(t: u64) -> Place
    ensures { TurnPlace t result }
{
    Place {
        x: sample(t, 7919, 10000),
        y: sample(t, 6007, 10000),
    }
}

// The rectangle of a turn.
fn turn_rect(t: u64) -> Rect
    ensures { TurnRect t result }
{
    Rect {
        xlo: sample(t, 7919, MOST_COORDINATE as u64),
        ylo: sample(t, 6007, MOST_COORDINATE as u64),
        xhi: sample(t, 4409, 0),
        yhi: sample(t, 3001, 0),
    }
}

// What is found of an opened job at each turn.
trait Kernel {
    ghost figure: { Query.Deck → ℕ → ℕ };

    fn at(o: &Opened, t: u64) -> u64
        ensures { Figure (figure (deck_of o.now.deck) t) cost_limit result };
}

// The cost of a place.
struct Cost;

impl Kernel for Cost {
    ghost figure = { cost_turn };

    fn at(o: &Opened, t: u64) -> u64 {
        pricing::cost(&o.problem.objects, turn_place(t))
    }
}

// The load of a rectangle.
struct Load;

impl Kernel for Load {
    ghost figure = { load_turn };

    fn at(o: &Opened, t: u64) -> u64 {
        corner_bound::load(&o.problem.objects, turn_rect(t))
    }
}

// The bound of a rectangle.
struct Bound;

impl Kernel for Bound {
    ghost figure = { bound_turn };

    fn at(o: &Opened, t: u64) -> u64 {
        pricing::bound(&o.problem.objects, turn_rect(t))
    }
}

// Whether the corner bound of a rectangle is above 0.
struct CornerBound;

impl Kernel for CornerBound {
    ghost figure = { corner_bound_turn };

    fn at(o: &Opened, t: u64) -> u64 {
        positive(corner_bound::corner_bound(&o.problem.objects, turn_rect(t)))
    }
}

// Whether a rectangle has a cut at a line above 0.
struct Cut;

impl Kernel for Cut {
    ghost figure = { cut_turn };

    fn at(o: &Opened, t: u64) -> u64 {
        match o.cut_of(turn_rect(t)) {
            Some(cut) => positive(cut.at),
            None => 0,
        }
    }
}

// The near of stop t of the deck, with that of all stops found anew.
struct Near;

impl Kernel for Near {
    ghost figure = { near_turn };

    fn at(o: &Opened, t: u64) -> u64 {
        let deck = &o.deck;
        let near = columns::nears_of(deck.axis, deck.listed_posts(), deck.listed_stops());
        near[(t % STOPS as u64) as usize]
    }
}

// What a kernel gives over some turns, summed.
fn sum_turns<K: Kernel>(o: &Opened, turns: u64) -> u64
    requires { turns ≤ turns_limit }
    ensures { Figure (sum_to (K.figure (deck_of o.now.deck)) turns) (turns_limit * cost_limit) result }
{
    let mut sum = 0;
    for t in 0..turns {
        sum += K::at(o, t);
    }
    sum
}

// The sum for a job. None where the job is refused or there are too many turns.
fn sum_of_job(job: &[u8], which: u64, turns: u64) -> Option<i64>
    requires { which ≤ 5 }
    ensures { figure_or minus_one result ≡ kernel_sum which turns (read_job job.now) }
{
    let o = Opened::of_job(job)?;
    if MOST_TURNS < turns {
        return None;
    }
    Some(sum_of(&o, which, turns) as i64)
}

// The sum by the kernel's number.
fn sum_of(o: &Opened, which: u64, turns: u64) -> u64
    requires { (which ≤ 5) × (turns ≤ turns_limit) }
    ensures { Figure (sum_to (turn (deck_of o.now.deck) which) turns) (turns_limit * cost_limit) result }
{
    match which {
        0 => sum_turns::<Cost>(o, turns),
        1 => sum_turns::<Load>(o, turns),
        2 => sum_turns::<Bound>(o, turns),
        3 => sum_turns::<Cut>(o, turns),
        4 => sum_turns::<Near>(o, turns),
        _ => sum_turns::<CornerBound>(o, turns),
    }
}

/// What a kernel gives over so many turns, summed, by its number: 0 cost, 1 load, 2 bound, 3 whether there is a cut at a line above 0,
/// 4 the near of a stop, with that of all stops found anew at each turn, 5 whether the corner bound is above 0. −1 where the job is refused
/// or there are more than 100,000 turns, and `trial::NO_FIGURE` where no kernel has the number; the callers are C functions, which give a
/// number.
pub fn kernel_sum(job: &[u8], which: u64, turns: u64) -> i64
    ensures { result ≡ kernel_sum which turns (read_job job.now) }
{
    if 5 < which {
        return NO_FIGURE;
    }
    sum_of_job(job, which, turns).unwrap_or(-1)
}
