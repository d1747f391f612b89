// The calls that read, write and change records, for the tests and benchmarks from Rust.
ghost use Rattle.std.specs.Prelude.{◌≡◌, ◌≤◌};
ghost use Rattle.deck.specs.DeckOf.{Sized};
ghost use Rattle.deck.specs.Values.{stop_of};
ghost use Rattle.calls.specs.Answers.{gives, change_answer};
ghost use Rattle.calls.specs.ReadCall.{read_call};
ghost use Rattle.calls.specs.WriteCall.{write_call};
ghost use Rattle.calls.specs.ChangeCall.{change_call};
ghost use Rattle.job.specs.Format.{size_limit};
ghost use Rattle.trial_calls.specs.Records.{count_figure, change_figure, read_into, wrote, change_of, trial_change};

use crate::refused_figure;
use deck::{Deck, Place, Stop};
use refusal::Refusal;
use trial::NO_FIGURE;

// A number that goes with a count: the count itself; then 0 twice, for no refusal. The least number behind them.
fn count_figure(n: u64, which: u64) -> i64
    requires { n ≤ size_limit }
    ensures { result ≡ count_figure which (gives n) }
{
    match which {
        0 => n as i64,
        1 | 2 => 0,
        _ => NO_FIGURE,
    }
}

/// A number of the answer of `siting::read`: the rounds, and the refusal's number and line, 0 for none. The least number where there is
/// none. The record of an accepted job is put in the place of the one that is lent, which stays as it was where the job is refused.
pub fn trial_read(job: &[u8], deck: &mut Deck, which: u64) -> i64
    ensures { record { result = result; deck = deck.new } ≡ read_into which deck.old (read_call job.now) }
{
    match siting::read(job) {
        Ok(j) => {
            *deck = j.deck;
            count_figure(j.rounds, which)
        }
        Err(why) => refused_figure(1, why, which),
    }
}

// The arrays of any record of the code have their sizes. The laws of writing ask for that, and a record that is only passed on does not
// tell it.
fn sized(deck: &Deck)
    ensures { Sized deck.now }
{
    let _posts: &[Place] = &deck.posts;
    let _stops: &[Stop] = &deck.stops;
}

/// A number of the answer of `siting::write`: the bytes written, and the refusal's number and line, 0 for none. The least number where
/// there is none. The output is as `siting::write` leaves it.
pub fn trial_write(deck: &Deck, rounds: u64, out: &mut [u8], which: u64) -> i64
    ensures { record { result = result; out = out.new } ≡ wrote which (write_call deck.now rounds out.old) }
{
    sized(deck);
    match siting::write(deck, rounds, out) {
        Ok(bytes) => count_figure(bytes as u64, which),
        Err(why) => refused_figure(1, why, which),
    }
}

// The change of a kind, of which there are four. A post is at the place of `item`.
fn change(deck: &mut Deck, kind: u64, item: Stop) -> Result<(), Refusal>
    ensures { record { answer = change_answer result; deck = deck.new } ≡ change_call deck.old (change_of kind (stop_of item)) }
{
    match kind {
        0 => siting::add_post(deck, item.at),
        1 => siting::remove_post(deck, item.at),
        2 => siting::add_stop(deck, item),
        _ => siting::remove_stop(deck, item),
    }
}

// A number that goes with a change that is made: 0 twice, for no refusal. The least number behind them.
fn change_figure(which: u64) -> i64
    ensures { result ≡ change_figure which (gives tt) }
{
    match which {
        0 | 1 => 0,
        _ => NO_FIGURE,
    }
}

/// A number of the answer to a change of the record, where kind 0 adds a post at the place of `item`, 1 removes one, 2 adds the stop `item`
/// and 3 removes it: the refusal's number and line, 0 for none. The least number where there is none. The record is as the change leaves
/// it. Where there is no such kind, the least number, and the record as it was.
pub fn trial_change(deck: &mut Deck, kind: u64, item: Stop, which: u64) -> i64
    ensures { record { result = result; deck = deck.new } ≡ trial_change deck.old kind (stop_of item) which }
{
    if 3 < kind {
        return NO_FIGURE;
    }
    match change(deck, kind, item) {
        Ok(()) => change_figure(which),
        Err(why) => trial::refusal_figure(why, which),
    }
}
