// The lines of one kind, into a lent buffer. What its lines say lies at the front of the buffer, also where a later line
// is wrong; the rest of the buffer stays.
ghost use Rattle.std.specs.Prelude.{◌≡◌, refl, Bool, List, [], ◌∷◌, ◌++◌, ℕ, ◌/◌, ◌<◌, length};
ghost use Rattle.std.specs.Fn.{FnReturnsAt};
ghost use Rattle.decimal.specs.Text.{Got, from};
ghost use Rattle.meta.specs.Runs.{numbers_of};
ghost use Rattle.plan_line.specs.Readers.{read_number, read_run};
ghost use Rattle.plan_text.specs.Parse.{section, tested};
ghost use Rattle.decimal.specs.Places.{found_in};
ghost use Rattle.plan_text.specs.Entries.{fill};
ghost use Rattle.std.proofs.Common.{rules};

use decimal::{Found, skip};
use meta::ZeroExtent;
use plan_line::{read_number, read_run};

// What a line says: a value, and the numbers that a buffer keeps of it.
pub trait Entry: Copy {
    // how many numbers
    const WIDTH: usize;

    ghost WIDTH: { ℕ };

    ghost reading: { List ℕ → Got Self };

    ghost numbers: { List Self → List ℕ };

    // The value, and the place where the next line begins.
    fn read(text: &[u8], at: usize) -> Option<Found<Self>>
        ensures { found_in text.now result ≡ reading (from text.now at) };

    fn put(self, out: &mut [u64])
        requires { length out.old ≡ WIDTH }
        ensures { out.new ≡ numbers (self ∷ []) };

    ghost wide: { 0 < WIDTH };

    ghost none: { numbers [] ≡ [] };

    ghost more: { (x : Self) (xs : List Self) → numbers (x ∷ xs) ≡ numbers (x ∷ []) ++ numbers xs };

    ghost width: { (x : Self) → length (numbers (x ∷ [])) ≡ WIDTH };
}

impl Entry for ZeroExtent {
    const WIDTH: usize = 2;

    ghost WIDTH = { 2 };

    ghost reading = { read_run };

    ghost numbers = { numbers_of };

    fn read(text: &[u8], at: usize) -> Option<Found<ZeroExtent>> {
        read_run(text, at)
    }

    fn put(self, out: &mut [u64]) {
        out.copy_from_slice(&[self.start, self.end]);
    }

    ghost wide = { Prim.search rules };

    ghost none = { refl };

    ghost more = { λ x xs. refl };

    ghost width = { λ x. refl };
}

impl Entry for u64 {
    const WIDTH: usize = 1;

    ghost WIDTH = { 1 };

    ghost reading = { read_number };

    ghost numbers = { λ xs. xs };

    fn read(text: &[u8], at: usize) -> Option<Found<u64>> {
        read_number(text, at)
    }

    fn put(self, out: &mut [u64]) {
        out.copy_from_slice(&[self]);
    }

    ghost wide = { Prim.search rules };

    ghost none = { refl };

    ghost more = { λ x xs. refl };

    ghost width = { λ x. refl };
}

ghost use Rattle.plan_text.specs.Fill.{lines_in};

// How many lines there are, and where the text goes on.
fn read_lines<E: Entry>(text: &[u8], at: usize, key: &[u8], out: &mut [u64]) -> Option<Found<usize>>
    ensures { lines_in text.now result out.new ≡ fill E.WIDTH E.numbers 0 (section E.reading key.now (length out.old / E.WIDTH) (from text.now at)) out.old }
{
    let most = out.len() / E::WIDTH;
    let mut here = at;
    // By an index, tried without: once what `chunks_exact_mut` lends is given back, a proof knows the buffer's length alone.
    for count in 0..most {
        let Some(value) = skip(text, here, key) else {
            return Some(Found {
                value: count,
                next: here,
            });
        };
        let entry = E::read(text, value)?;
        let place = count * E::WIDTH;
        entry.value.put(&mut out[place..place + E::WIDTH]);
        here = entry.next;
    }
    match skip(text, here, key) {
        Some(_) => None,
        None => Some(Found {
            value: most,
            next: here,
        }),
    }
}

// The lines of one kind, and a test of the numbers of all.
pub fn read_section<E: Entry, F: Fn(&[u64]) -> bool>(
    text: &[u8],
    at: usize,
    key: &[u8],
    out: &mut [u64],
    test: F,
) -> Option<Found<usize>>
    requires { F.IsAlwaysCallable test }
    ensures { (ok : List E → Bool) → ((xs : List E) (r : Bool) → FnReturnsAt F.Fn test (E.numbers xs) r → r ≡ ok xs)
        → lines_in text.now result out.new
        ≡ fill E.WIDTH E.numbers 0 (tested ok (section E.reading key.now (length out.old / E.WIDTH) (from text.now at))) out.old }
{
    let lines = read_lines::<E>(text, at, key, out)?;
    let used = lines.value * E::WIDTH;
    if !test(&out[..used]) {
        return None;
    }
    Some(lines)
}
