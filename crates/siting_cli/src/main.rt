// The program: reads a job from standard input and prints its report, or why there is none (RULES "Calls").
#![tactic(auto)]

ghost use Rattle.std.specs.Prelude.{◌≡◌, ◌≢◌, ◌≤◌, ℕ, Err, OnOk, length, take};
ghost use Rattle.std.specs.Io.KnownBytes.{Appends, Consumes, IsAtEnd};
ghost use Rattle.calls.specs.Program.{answer_text};
ghost use Rattle.siting_cli.specs.declared.Failure.TheVariants.{Writing};
ghost use Rattle.siting_cli.specs.declared.Filled.TheVariants.{Whole};
ghost use Rattle.siting_cli.specs.Output.{count_in, AnswersAll, AnswersRead};

use limits::JOB_BYTES;
use std::io::{Read, Write};

// How many bytes were read: all that there are, or that fit; or only a part of them, since a read failed.
#[derive(Clone, Copy)]
enum Filled {
    Whole(usize),
    Part(usize),
}

// What went wrong: a read failed, and what was read before is answered; or a write failed.
#[derive(Clone, Copy)]
enum Failure {
    Reading,
    Writing,
}

// Reads until `buf` is full, the input ends or a read fails. The bytes that were read are the first ones of `buf`.
//
// No clause says that a read failed where the answer is `Part`, since that of `read` does not say when it fails: a body that reads nothing
// and answers `Part(0)` is ruled out by tests alone (tests/tests/program.rs).
fn read_full<R: Read>(input: &mut R, buf: &mut [u8]) -> Filled
    ensures bound { count_in result ≤ length buf.new }
    ensures same { length buf.new ≡ length buf.old }
    ensures bytes { Consumes (R.remaining input.old) (R.remaining input.new) (take (count_in result) buf.new) }
    ensures end { (n : ℕ) → result ≡ Whole n → n ≢ length buf.new → IsAtEnd (R.remaining input.new) }
{
    let mut count = 0;
    while count < buf.len() {
        match input.read(&mut buf[count..]) {
            Ok(0) => return Filled::Whole(count),
            Ok(n) => count += n,
            Err(_) => return Filled::Part(count),
        }
    }
    Filled::Whole(count)
}

// Writes what the program prints for these bytes as a job.
//
// As of `read_full`, tests alone rule out a body that writes nothing and says that a write failed.
fn write_answer<W: Write>(job: &[u8], output: &mut W) -> Result<(), Failure>
    ensures { result ≢ Err Writing → Appends (W.contents output.old) (W.contents output.new) (answer_text job.now) }
{
    let text = siting::answer_text(job);
    output
        .write_all(text.as_bytes())
        .map_err(|_| Failure::Writing)
}

// Answers an input. A read that fails counts as its end, so that the bytes before it are the job.
fn answer<R: Read, W: Write>(input: &mut R, output: &mut W) -> Result<(), Failure>
    ensures whole { OnOk result (AnswersAll (R.remaining input.old) (W.contents output.old) (W.contents output.new)) }
    ensures read { result ≢ Err Writing
        → AnswersRead (R.remaining input.old) (R.remaining input.new) (W.contents output.old) (W.contents output.new) }
{
    // one byte more than a job may have, so that a longer one is refused
    let mut job = [0u8; JOB_BYTES + 1];
    match read_full(input, &mut job) {
        Filled::Whole(count) => write_answer(&job[..count], output),
        Filled::Part(count) => {
            write_answer(&job[..count], output)?;
            Err(Failure::Reading)
        }
    }
}

fn main(rt: HostRuntime) {
    let _ = answer(&mut rt.stdin(), &mut rt.stdout());
}
