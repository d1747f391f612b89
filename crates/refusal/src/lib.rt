// The reasons for a refusal, and the number and the line of each.
#![tactic(auto)]

ghost use Rattle.std.specs.Prelude.{◌≡◌};
ghost use Rattle.refusal.specs.Refusal.{number_of, line_of};

/// Why a call refuses (RULES "Refusals"). Two reasons hold a line of the job, counted from 1.
#[derive(Clone, Copy, PartialEq, Eq)]
pub enum Refusal {
    /// The job has more bytes than a job may have.
    TooLong,
    /// This line is without its form, is missing, or is one too many.
    Malformed(u64),
    /// This line has its form, and a value out of range. A change, which has no lines, gives 0.
    OutOfRange(u64),
    /// The area's low edge lies beyond its high edge, in x or in y.
    EmptyArea,
    /// There are no posts, or a change would leave none.
    NoPosts,
    /// There are no stops, or a change would leave none.
    NoStops,
    /// The cell space has fewer than five numbers for each of the cells that the job needs (RULES "Change 3").
    SmallSpace,
    /// The output has too few bytes for a report, or for the job that is written.
    ShortOutput,
    /// No post or stop has the values that a change is to remove.
    NotHeld,
    /// There are as many posts or stops as there can be, and a change is to add one.
    Full,
}

/// The number of a refusal, 1 to 10 in the order of the reasons (RULES "Refusals").
pub fn number_of(why: Refusal) -> u64
    ensures { result ≡ number_of why }
{
    match why {
        Refusal::TooLong => 1,
        Refusal::Malformed(_) => 2,
        Refusal::OutOfRange(_) => 3,
        Refusal::EmptyArea => 4,
        Refusal::NoPosts => 5,
        Refusal::NoStops => 6,
        Refusal::SmallSpace => 7,
        Refusal::ShortOutput => 8,
        Refusal::NotHeld => 9,
        Refusal::Full => 10,
    }
}

/// The line of a refusal, counted from 1; 0 for all reasons but those that hold one.
pub fn line_of(why: Refusal) -> u64
    ensures { result ≡ line_of why }
{
    match why {
        Refusal::Malformed(line) | Refusal::OutOfRange(line) => line,
        _ => 0,
    }
}
