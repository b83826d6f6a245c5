// The answer of zeroplan as text.
#![tactic(auto)]

ghost use Rattle.std.specs.Prelude.{◌≡◌, Ok, Err, IsSome, [], ◌++◌, ◌+◌, ◌*◌, ◌/◌, ◌≤◌, ◌↔◌, length};
ghost use Rattle.decimal.specs.Write.{Puts, written};
ghost use Rattle.meta.specs.Runs.{runs_of};

use decimal::Writer;
use meta::ZeroExtent;

// Why there is no plan: it has too many runs, which is 31; or the text says nothing.
#[derive(Debug, Clone, Copy, PartialEq, Eq)]
pub enum PlanError {
    Extents,
    Malformed,
}

ghost use Rattle.plan_line.specs.Values.{ascii, number_value, run_value, lines};
ghost use Rattle.plan_report.specs.Answers.{report};
ghost use Rattle.plan_report.specs.Print.{printed, put_length};

// The longest run's line takes 49 bytes, the lines before the runs 72.
const LONGEST_RUN: usize = 49;

const LONGEST_HEAD: usize = 72;

// A key, a number of at most 20 digits, and the end of the line.
// Not by Display: a lent buffer with room can't fail here, and std's `write!` into one may (decimal's put_number).
fn put_value(writer: &mut Writer<'_>, key: &[u8], n: u64)
    requires { writer.old.at + length key.now + 21 ≤ length writer.old.out.now }
    ensures { Puts writer.old writer.new (key.now ++ number_value n) }
{
    writer.put(key);
    writer.put_number(n);
    writer.put(b"\n");
}

fn put_run(writer: &mut Writer<'_>, run: ZeroExtent)
    requires { writer.old.at + 49 ≤ length writer.old.out.now }
    ensures { Puts writer.old writer.new (ascii "extent=" ++ run_value run) }
{
    writer.put(b"extent=");
    writer.put_number(run.start);
    put_value(writer, b"-", run.end);
}

// A line for each run, two numbers a run.
fn put_runs(writer: &mut Writer<'_>, runs: &[u64])
    requires { writer.old.at + 49 * (length runs.now / 2) ≤ length writer.old.out.now }
    ensures { Puts writer.old writer.new (lines (ascii "extent=") run_value (runs_of runs.now)) }
{
    let (pairs, _) = runs.as_chunks::<2>();
    for &[start, end] in pairs {
        put_run(writer, ZeroExtent { start, end });
    }
}

fn put_plan(writer: &mut Writer<'_>, pages: u64, runs: &[u64])
    requires { writer.old.at + 72 + 49 * (length runs.now / 2) ≤ length writer.old.out.now }
    ensures { Puts writer.old writer.new (report (Ok pages) (runs_of runs.now)) }
{
    let count = (runs.len() / 2) as u64;
    writer.put(b"result=accepted\n");
    put_value(writer, b"pages=", pages);
    put_value(writer, b"extents=", count);
    put_runs(writer, runs);
}

fn put_error(writer: &mut Writer<'_>, error: PlanError)
    requires { writer.old.at + 72 ≤ length writer.old.out.now }
    ensures { Puts writer.old writer.new (report (Err error) []) }
{
    match error {
        PlanError::Extents => writer.put(b"result=extents\n"),
        PlanError::Malformed => writer.put(b"result=malformed\n"),
    }
}

fn put_answer(writer: &mut Writer<'_>, answer: Result<u64, PlanError>, runs: &[u64])
    requires { writer.old.at + 72 + 49 * (length runs.now / 2) ≤ length writer.old.out.now }
    ensures { Puts writer.old writer.new (report answer (runs_of runs.now)) }
{
    match answer {
        Ok(pages) => put_plan(writer, pages, runs),
        Err(error) => put_error(writer, error),
    }
}

// Puts the text of an answer at the front of `out`, and answers its length; the bytes behind it stay. An accepted plan has
// its page count. Where `out` has no room for the longest answer with as many runs, nothing is put there, and
// the answer is None.
pub fn print(out: &mut [u8], answer: Result<u64, PlanError>, runs: &[u64]) -> Option<usize>
    ensures text { written (put_length result) out.new ≡ printed answer (runs_of runs.now) out.old }
    ensures room { IsSome result ↔ 72 + 49 * (length runs.now / 2) ≤ length out.old }
{
    let room = out.len().checked_sub(LONGEST_HEAD)?;
    if room / LONGEST_RUN < runs.len() / 2 {
        return None;
    }
    let mut writer = Writer { out, at: 0 };
    put_answer(&mut writer, answer, runs);
    Some(writer.at)
}
