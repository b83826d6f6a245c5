// The record: zero runs in order of push, two numbers a run.
ghost use Rattle.std.specs.Prelude.{◌≡◌};
ghost use Rattle.pool.specs.Pool.{pushes, pushed};

use config::Refusal;
use meta::ZeroExtent;

// The run behind the first `count`, if it has a page in it: the entries in use then, or 34.
pub fn push_run(record: &mut [u64], count: usize, run: ZeroExtent) -> Result<usize, Refusal>
    ensures { pushes result «record».new ≡ pushed «record».old count run.start run.end }
{
    if run.is_empty() {
        return Ok(count);
    }
    if record.len() / 2 <= count {
        return Err(Refusal::RecordFull);
    }
    runs::write(record, count, run);
    Ok(count + 1)
}
