// A state in 336 bytes: the count of stable pages, the block's 21 numbers, whether an update is open, and the overlay's 19.
ghost use Rattle.std.specs.Prelude.{◌≡◌, ◌+◌, ◌*◌, ◌≤◌, length};
ghost use Rattle.memory.specs.Bytes.{overwrite};
ghost use Rattle.words.specs.Words.{words};
ghost use Rattle.meta_load.specs.RoundTrip.{Wide};
ghost use Rattle.encoding.specs.StateBytes.{state_bytes, state_in};

use crate::overlay_numbers;
use config::StablePages;
use meta::Superblock;
use store::State;

// Where the parts are among the numbers.
const BLOCK: usize = 1;

const UPDATING: usize = BLOCK + Superblock::NUMBERS;

const OVERLAY: usize = UPDATING + 1;

const STATE_NUMBERS: usize = OVERLAY + overlay_numbers::OVERLAY_NUMBERS;

pub const STATE_BYTES: usize = STATE_NUMBERS * 8;

// Any bytes are a state; a mark of an open update that is not 0 is one.
// Not a `From`, here and below: neither a state nor its bytes are a type of this crate.
pub fn decode(state: &[u8]) -> State
    requires { 336 ≤ length state.now }
    ensures { result ≡ state_in state.now }
{
    let n: [u64; STATE_NUMBERS] = words::read_words(state, 0);
    State {
        count: StablePages(n[0]),
        block: Superblock::of_numbers(&n[BLOCK..]),
        updating: n[UPDATING] != 0,
        overlay: overlay_numbers::overlay_of(&n[OVERLAY..]),
    }
}

// The numbers from place `at` on become these, which are numbers of 64 bits, as a caller learns here.
fn put(bytes: &mut [u8], at: usize, numbers: &[u64])
    requires { (at + length numbers.now) * 8 ≤ length bytes.old }
    ensures { (bytes.new ≡ overwrite (at * 8) (words numbers.now) bytes.old) × Wide numbers.now }
{
    words::write_words(bytes, at * 8, numbers);
}

pub fn encode(s: State, state: &mut [u8])
    requires { length state.old ≡ 336 }
    ensures { (state.new ≡ state_bytes s) × (state_in state.new ≡ s) }
{
    put(state, 0, &[s.count.0]);
    put(state, BLOCK, &s.block.numbers());
    put(state, UPDATING, &[u64::from(s.updating)]);
    put(state, OVERLAY, &overlay_numbers::numbers_of(s.overlay));
}
