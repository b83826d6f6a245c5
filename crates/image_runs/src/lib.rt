// The runs of an image, in its bytes. Their count stands beside these: it is a field of the superblock, and may be any number.
#![tactic(auto)]

ghost use Rattle.std.specs.Prelude.{◌≡◌, ◌*◌, ◌/◌, ◌≤◌, length};
ghost use Rattle.meta.specs.Runs.{runs_in as stored_in};
ghost use Rattle.runs.specs.Sets.{covers};
ghost use Rattle.image_runs.specs.Image.{image_runs};

use meta::Superblock;
use runs::Stored;

// The first `count` runs of the image, at most 1,024, or as many as are whole in the bytes.
pub fn stored(mem: &[u8], count: usize) -> Stored<'_>
    ensures runs { stored_in (length result.bytes.now / 16) result.bytes.now ≡ image_runs count mem.now }
    ensures few { length (stored_in (length result.bytes.now / 16) result.bytes.now) ≤ 1024 }
{
    let list = mem.get(Superblock::EXTENTS_OFFSET..).unwrap_or(&[]);
    let n = count
        .min(Superblock::MAX_ZERO_EXTENTS as usize)
        .min(list.len() / 16);
    Stored {
        bytes: &list[..n * 16],
    }
}

// Whether one of the image's runs has the page.
pub fn image_covers(mem: &[u8], count: usize, page: u64) -> bool
    ensures { result ≡ covers (image_runs count mem.now) page }
{
    runs::covers_page(stored(mem, count), page)
}
