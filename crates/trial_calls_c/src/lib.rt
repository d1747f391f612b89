// Exports of the functions of crate `trial_calls`, for the tests and benchmarks from Rust.
#![tactic(auto)]

ghost use Rattle.std.specs.Prelude.{◌≡◌};
ghost use Rattle.deck.specs.Values.{stop_of};
ghost use Rattle.calls.specs.Call.{report_call};
ghost use Rattle.calls.specs.CheapestCall.{exhaustive_call};
ghost use Rattle.calls.specs.EstimateCall.{estimate_call};
ghost use Rattle.calls.specs.ReadCall.{read_call};
ghost use Rattle.calls.specs.WriteCall.{write_call};
ghost use Rattle.trial_calls.specs.Calls.{called, figure_for, cheapest_figure};
ghost use Rattle.trial_calls.specs.Estimates.{estimate_figure};
ghost use Rattle.trial_calls.specs.Records.{read_into, wrote, trial_change};

use deck::{Deck, Stop};
use trial_calls::{estimates, records};

/// `trial_calls::trial_report`: a number of the answer of `siting::report`.
#[unsafe(no_mangle)]
pub extern "C" fn trial_report(job: &[u8], cells: &mut [i64], out: &mut [u8], which: u64) -> i64
    ensures { record { result = result; cells = cells.new; out = out.new }
        ≡ called (figure_for which) (report_call job.now cells.old out.old) }
{
    trial_calls::trial_report(job, cells, out, which)
}

/// `trial_calls::trial_exhaustive`: a number of the answer of `siting::exhaustive`.
#[unsafe(no_mangle)]
pub extern "C" fn trial_exhaustive(job: &[u8], which: u64) -> i64
    ensures { result ≡ cheapest_figure which (exhaustive_call job.now) }
{
    trial_calls::trial_exhaustive(job, which)
}

/// `trial_calls::estimates::trial_estimate`: a number of the answer of `siting::estimate`.
#[unsafe(no_mangle)]
pub extern "C" fn trial_estimate(job: &[u8], which: u64) -> i64
    ensures { result ≡ estimate_figure which (estimate_call job.now) }
{
    estimates::trial_estimate(job, which)
}

/// `trial_calls::records::trial_read`: a number of the answer of `siting::read`, and the record of an accepted job.
#[unsafe(no_mangle)]
pub extern "C" fn trial_read(job: &[u8], deck: &mut Deck, which: u64) -> i64
    ensures { record { result = result; deck = deck.new } ≡ read_into which deck.old (read_call job.now) }
{
    records::trial_read(job, deck, which)
}

/// `trial_calls::records::trial_write`: a number of the answer of `siting::write`, and the output.
#[unsafe(no_mangle)]
pub extern "C" fn trial_write(deck: &Deck, rounds: u64, out: &mut [u8], which: u64) -> i64
    ensures { record { result = result; out = out.new } ≡ wrote which (write_call deck.now rounds out.old) }
{
    records::trial_write(deck, rounds, out, which)
}

/// `trial_calls::records::trial_change`: a number of the answer to a change, and the record then.
#[unsafe(no_mangle)]
pub extern "C" fn trial_change(deck: &mut Deck, kind: u64, item: Stop, which: u64) -> i64
    ensures { record { result = result; deck = deck.new } ≡ trial_change deck.old kind (stop_of item) which }
{
    records::trial_change(deck, kind, item, which)
}
