// 64-bit numbers in bytes, the lowest byte first.
#![tactic(auto)]

ghost use Rattle.std.specs.Prelude.{◌≡◌, ◌+◌, ◌*◌, ◌≤◌, length, drop};
ghost use Rattle.memory.specs.Bytes.{overwrite};
ghost use Rattle.words.specs.Words.{word, words, word_at, words_in};

// The number at a place.
pub fn read_word(bytes: &[u8], at: usize) -> u64
    requires { at + 8 ≤ length bytes.now }
    ensures { result ≡ word_at at bytes.now }
{
    let mut eight = [0; 8];
    eight.copy_from_slice(&bytes[at..at + 8]);
    u64::from_le_bytes(eight)
}

// A number goes to a place.
pub fn write_word(bytes: &mut [u8], at: usize, x: u64)
    requires { at + 8 ≤ length bytes.old }
    ensures { bytes.new ≡ overwrite at (word x) bytes.old }
{
    bytes[at..at + 8].copy_from_slice(&x.to_le_bytes());
}

// The numbers from a place on become all of `numbers`. By index, here and below: of what a `zip` of `iter_mut` or `as_chunks_mut` lends a proof knows the length alone.
pub fn read_into(numbers: &mut [u64], bytes: &[u8], at: usize)
    requires { at + length numbers.old * 8 ≤ length bytes.now }
    ensures { numbers.new ≡ words_in (length numbers.old) (drop at bytes.now) }
{
    for (i, number) in numbers.iter_mut().enumerate() {
        *number = read_word(bytes, at + i * 8);
    }
}

// The `N` numbers from a place on.
pub fn read_words<const N: usize>(bytes: &[u8], at: usize) -> [u64; N]
    requires { at + N * 8 ≤ length bytes.now }
    ensures { result ≡ words_in N (drop at bytes.now) }
{
    let mut numbers = [0; N];
    read_into(&mut numbers, bytes, at);
    numbers
}

// Numbers go to a place, one behind the other.
pub fn write_words(bytes: &mut [u8], at: usize, numbers: &[u64])
    requires { at + length numbers.now * 8 ≤ length bytes.old }
    ensures { bytes.new ≡ overwrite at (words numbers.now) bytes.old }
{
    for (i, number) in numbers.iter().enumerate() {
        write_word(bytes, at + i * 8, *number);
    }
}
