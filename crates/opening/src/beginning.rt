// The begin of an update.
ghost use Rattle.store.specs.Answers.{answered, Size};
ghost use Rattle.store.specs.Calls.{begin};
ghost use Rattle.lending.specs.Lending.{Alone};

use config::Refusal;
use store::State;
use update::Overlay;

// "Beginning an update tests 10, then 13." A budget of pages and bytes counts where it is `limited`. The file's size.
// The limits come one by one, as C and the plain file speak of each, and not as an `Option`: where they do not count they stay in the state as they came.
pub fn begin_update(
    s: &mut State,
    limited: bool,
    max_pages: u64,
    max_bytes: u64,
) -> Result<u64, Refusal>
    ensures { Alone s.old (begin limited max_pages max_bytes) s.new (answered Size result) }
{
    if blocks::is_importing(s.block) {
        return Err(Refusal::ImportAlreadyStarted);
    }
    if s.updating {
        return Err(Refusal::UpdateBegunTwice);
    }
    let budget = lending::budget_of(limited, max_pages, max_bytes);
    s.updating = true;
    s.overlay = Overlay::new(s.block.db_size, budget);
    Ok(s.block.db_size)
}
