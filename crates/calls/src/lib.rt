// What the calls of the siting tool give. specs/ defines each call and states what is promised of it, and proofs/ proves that.
#![tactic(auto)]

ghost use Rattle.std.specs.Prelude.{◌≡◌, ◌≤◌, take, length};
ghost use Rattle.calls.specs.TextIn.{TextIn};
ghost use Rattle.report.specs.Limits.{output_size};

use limits::REPORT_BYTES;
use refusal::Refusal;
use report::Report;
use std::marker::Model;

/// What `siting::report` answers (RULES "Forms"): a report, whose state says how the search ended, or the refusal that applies first.
#[derive(Clone, Copy, PartialEq, Eq)]
pub enum Answer {
    /// The job is accepted, with what is lent.
    Report(Report),
    /// It is not, for this reason.
    Refused(Refusal),
}

/// What a job needs (RULES "Change 3").
#[derive(Clone, Copy)]
pub struct Estimate {
    /// The gaps between vertical lines, at least 1.
    pub across: u64,
    /// The gaps between horizontal lines, at least 1.
    pub deep: u64,
    /// The most cuts that a search can make.
    pub limit: u64,
    /// The most cells that are live at once. The cell space of `siting::report` has `limits::CELL_NUMBERS` numbers for each.
    pub cells: u64,
}

/// The text that the program prints, of at most `limits::REPORT_BYTES` bytes. A contract sees these bytes alone.
#[derive(Drop)]
pub struct Text {
    // The text is the first `length` of `bytes`; the others are 0. An array and no `ArrayVec` of the kit, so that nobody need believe that
    // crate.
    length: usize,
    bytes: [u8; REPORT_BYTES],
}

impl Model for Text {
    ghost use Rattle.std.specs.Prelude.{ℕ, List, take};
    ghost use Rattle.calls.specs.TextIn.{TextIn};

    ghost Value = { List ℕ };

    ghost view = { λ t. take t.length t.bytes };

    ghost invariant = { λ t. TextIn t.bytes t.length };
}

impl Text {
    /// The text in the first `length` bytes, behind which there are zeros.
    pub fn new(bytes: [u8; REPORT_BYTES], length: usize) -> Text
        requires { TextIn bytes length }
        ensures { result ≡ take length bytes }
    {
        Text { length, bytes }
    }

    /// The bytes of the text.
    pub fn as_bytes(&self) -> &[u8]
        ensures whole { result.now ≡ self.now }
        ensures short { length result.now ≤ output_size }
    {
        &self.bytes[..self.length]
    }
}
