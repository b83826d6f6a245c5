// What each call makes of the superblock. Page size, schema version (but for the end of an import) and unknown bits of the flags are carried on.
#![tactic(auto)]

ghost use Rattle.std.specs.Prelude.{◌≡◌, false};
ghost use Rattle.store.specs.Blocks.{importing, stale, refreshing, marks, set_image, set_import, set_refresh, set_numbers, set_flags};
ghost use Rattle.store.specs.Blocks.{after_commit, after_import_begin, after_import_chunk, after_import_cancel, after_import_finish, after_refresh, after_refresh_step};

use meta::Superblock;

pub fn is_importing(b: Superblock) -> bool
    ensures { result ≡ importing b }
{
    b.flags & Superblock::FLAG_IMPORTING != 0
}

fn is_stale(b: Superblock) -> bool
    ensures { result ≡ stale b }
{
    b.flags & Superblock::FLAG_CHECKSUM_STALE != 0
}

pub fn is_refreshing(b: Superblock) -> bool
    ensures { result ≡ refreshing b }
{
    b.flags & Superblock::FLAG_CHECKSUM_REFRESHING != 0
}

const KNOWN_FLAGS: u64 = Superblock::FLAG_IMPORTING
    | Superblock::FLAG_CHECKSUM_STALE
    | Superblock::FLAG_CHECKSUM_REFRESHING;

// The flags that are known here; the other bits are carried on as they are.
#[derive(Clone, Copy)]
struct Marks {
    importing: bool,
    stale: bool,
    refreshing: bool,
}

impl Marks {
    fn of(b: Superblock) -> Marks
        ensures importing { result.importing ≡ importing b }
        ensures stale { result.stale ≡ stale b }
        ensures refreshing { result.refreshing ≡ refreshing b }
    {
        Marks {
            importing: is_importing(b),
            stale: is_stale(b),
            refreshing: is_refreshing(b),
        }
    }

    // A block with these marks.
    fn on(self, b: Superblock) -> Superblock
        ensures { result ≡ set_flags (marks self.importing self.stale self.refreshing b.flags) b }
    {
        let set = Superblock::FLAG_IMPORTING * u64::from(self.importing)
            | Superblock::FLAG_CHECKSUM_STALE * u64::from(self.stale)
            | Superblock::FLAG_CHECKSUM_REFRESHING * u64::from(self.refreshing);
        Superblock {
            flags: b.flags & !KNOWN_FLAGS | set,
            ..b
        }
    }
}

// A database of `size` bytes at `base`, with so many runs.
fn with_image(b: Superblock, base: u64, size: u64, runs: u64) -> Superblock
    ensures { result ≡ set_image 16384 base size runs b }
{
    let pages = config::page_count_for_size(size);
    Superblock {
        db_size: size,
        db_base_offset: base,
        page_table_offset: 0,
        page_count: pages.0,
        layout_version: Superblock::LAYOUT_VERSION,
        zero_extent_count: runs,
        ..b
    }
}

fn with_import(b: Superblock, expected: u64, written: u64, total: u64, base: u64) -> Superblock
    ensures { result ≡ set_import expected written total base b }
{
    Superblock {
        import_expected_checksum: expected,
        import_written_until: written,
        import_total_size: total,
        import_base_offset: base,
        ..b
    }
}

fn with_refresh(b: Superblock, offset: u64, hash: u64, tx: u64) -> Superblock
    ensures { result ≡ set_refresh offset hash tx b }
{
    Superblock {
        checksum_refresh_offset: offset,
        checksum_refresh_hash: hash,
        checksum_refresh_tx_id: tx,
        ..b
    }
}

fn with_numbers(b: Superblock, schema: u64, tx: u64, checksum: u64) -> Superblock
    ensures { result ≡ set_numbers schema tx checksum b }
{
    Superblock {
        schema_version: schema,
        last_tx_id: tx,
        checksum,
        ..b
    }
}

// "then the superblock: size, runs and page count; page-table offset 0; transaction number plus one, .. checksum marked stale; refresh
// cleared. A direct write or truncation commits alike, but leaves transaction number, stale mark and refresh progress."
// `update` stays a parameter, as 01 has one step for both: of two functions the one for an update would begin with the other's image, and
// `commit::publish`, their only caller, which serves both, would hold this `if`.
pub fn after_commit(b: Superblock, update: bool, size: u64, runs: u64) -> Superblock
    ensures { result ≡ after_commit 16384 18446744073709551615 update size runs b }
{
    let image = with_image(b, b.db_base_offset, size, runs);
    if !update {
        return image;
    }
    let cleared = with_refresh(image, 0, 0, 0);
    let marks = Marks {
        stale: true,
        refreshing: false,
        ..Marks::of(b)
    };
    let marked = marks.on(cleared);
    with_numbers(
        marked,
        b.schema_version,
        b.last_tx_id.saturating_add(1),
        b.checksum,
    )
}

pub fn after_import_begin(b: Superblock, total: u64, expected: u64, base: u64) -> Superblock
    ensures { result ≡ after_import_begin total expected base b }
{
    let begun = with_refresh(with_import(b, expected, 0, total, base), 0, 0, 0);
    let marks = Marks {
        importing: true,
        refreshing: false,
        ..Marks::of(b)
    };
    marks.on(begun)
}

pub fn after_import_chunk(b: Superblock, written: u64) -> Superblock
    ensures { result ≡ after_import_chunk written b }
{
    Superblock {
        import_written_until: written,
        ..b
    }
}

pub fn after_import_cancel(b: Superblock) -> Superblock
    ensures { result ≡ after_import_cancel b }
{
    let closed = with_import(b, 0, 0, 0, 0);
    let marks = Marks {
        importing: false,
        ..Marks::of(b)
    };
    marks.on(closed)
}

pub fn after_import_finish(b: Superblock, checksum: u64) -> Superblock
    ensures { result ≡ after_import_finish 16384 checksum b }
{
    let image = with_image(b, b.import_base_offset, b.import_total_size, 0);
    let finished = with_refresh(with_import(image, 0, 0, 0, 0), 0, 0, 0);
    let marks = Marks {
        importing: false,
        stale: false,
        refreshing: false,
    };
    let marked = marks.on(finished);
    with_numbers(marked, 0, b.last_tx_id, checksum)
}

pub fn after_refresh(b: Superblock, checksum: u64) -> Superblock
    ensures { result ≡ after_refresh checksum b }
{
    let refreshed = with_refresh(b, 0, 0, 0);
    let marks = Marks {
        stale: false,
        refreshing: false,
        ..Marks::of(b)
    };
    let marked = marks.on(refreshed);
    with_numbers(marked, b.schema_version, b.last_tx_id, checksum)
}

pub fn after_refresh_step(b: Superblock, offset: u64, hash: u64) -> Superblock
    ensures { result ≡ after_refresh_step offset hash b }
{
    let reached = with_refresh(b, offset, hash, b.last_tx_id);
    let marks = Marks {
        refreshing: true,
        ..Marks::of(b)
    };
    marks.on(reached)
}

// A refresh that is under way is given up.
pub fn without_refresh(b: Superblock) -> Superblock
    ensures { result ≡ set_flags (marks (importing b) (stale b) false b.flags) (set_refresh 0 0 0 b) }
{
    let marks = Marks {
        refreshing: false,
        ..Marks::of(b)
    };
    with_refresh(marks.on(b), 0, 0, 0)
}
