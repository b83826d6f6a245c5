// Reads what a commit is to do to the zero runs of an image, and prints the runs after it.
#![tactic(auto)]

ghost use Rattle.std.specs.Prelude.{◌≡◌, ◌≤◌, IfOk, length};
ghost use Rattle.decimal.specs.Write.{written, write};
ghost use Rattle.zeroplan.specs.Reply.{reply, reply_of};

use extents::Change;
use input::read_full;
use plan_text::{MOST_PAGES, MOST_RUN_NUMBERS, PlanError, print};
use std::io;

// One run more than an image may have, and two for each dirty page: `extents::work_numbers`, which a constant cannot call.
const WORK_NUMBERS: usize = 2 * (MOST_PAGES + 1 + 2 * MOST_PAGES);

// One byte more than an input may have, so that a longer one is seen.
const LONGEST_TEXT: usize = plan_text::MOST_BYTES + 1;

// The longest answer has 1,024 runs.
const LONGEST_REPLY: usize = 50_248;

// The plan that a text asks for: the pages of the image, and how many runs stand in front of the work list.
fn plan(text: &[u8], work: &mut [u64; WORK_NUMBERS]) -> Result<(u64, usize), PlanError>
    ensures told { reply_of result work.new ≡ reply text.now }
    ensures few { IfOk result (λ x. x.1 ≤ 1024) }
{
    let mut image = [0; MOST_RUN_NUMBERS];
    let mut recorded = [0; MOST_RUN_NUMBERS];
    let mut dirty = [0; MOST_PAGES];
    let found = plan_text::parse(text, &mut image, &mut recorded, &mut dirty);
    let parsed = found.ok_or(PlanError::Malformed)?;
    let change = Change {
        old_size: parsed.old_size,
        new_size: parsed.new_size,
        recorded: runs::first(&recorded, parsed.recorded).numbers,
        dirty: &dirty[..parsed.dirty],
    };
    let planned = extents::plan(work, runs::first(&image, parsed.extents), change);
    let count = planned.map_err(|_| PlanError::Extents)?;
    let pages = config::page_count_for_size(parsed.new_size);
    Ok((pages.0, count))
}

// Puts the answer to a text at the front of `out`, and answers its length.
fn respond(text: &[u8], out: &mut [u8]) -> usize
    requires { 50248 ≤ length out.old }
    ensures { written result out.new ≡ write 0 (reply text.now) out.old }
{
    let mut work = [0; WORK_NUMBERS];
    match plan(text, &mut work) {
        Ok((pages, count)) => print(out, Ok(pages), &work[..count * 2]).unwrap(),
        Err(error) => print(out, Err(error), &[]).unwrap(),
    }
}

fn main(rt: HostRuntime) -> io::Result<()> {
    let mut text = [0; LONGEST_TEXT];
    let n = read_full(&mut rt.stdin(), &mut text)?;
    let mut out = [0; LONGEST_REPLY];
    let k = respond(&text[..n], &mut out);
    rt.write_all(&out[..k])
}
