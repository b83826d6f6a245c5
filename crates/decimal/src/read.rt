// A text is read as if a line feed stood behind its end, so that its last line may lack its own.
// By a place, not by the rest from there: of an empty rest one could not say whether that line feed was read already. Text and place are
// two parameters: the text stays, and only the place goes on, which `Found` answers; a struct of both would be made anew at each step.
ghost use Rattle.std.specs.Prelude.{◌≡◌, ◌≤◌, length};

// A value that a text says, and the place behind it.
#[derive(Clone, Copy, Debug, PartialEq, Eq)]
pub struct Found<T> {
    pub value: T,
    pub next: usize,
}

ghost use Rattle.decimal.specs.Text.{from, is_at};
ghost use Rattle.decimal.specs.Text.{skip as skipWord, digits as readDigits, number as read_number};
ghost use Rattle.decimal.specs.Places.{place_in, found_in};

const LINE_FEED: u8 = b'\n';

fn is_at(text: &[u8], at: usize, byte: u8) -> bool
    ensures { result ≡ is_at byte (from text.now at) }
{
    match text.get(at) {
        Some(found) => *found == byte,
        None => at == text.len() && LINE_FEED == byte,
    }
}

// The place behind `word`, where the text has it.
pub fn skip(text: &[u8], at: usize, word: &[u8]) -> Option<usize>
    ensures { place_in text.now result ≡ skipWord word.now (from text.now at) }
{
    for (i, byte) in word.iter().enumerate() {
        if !is_at(text, at + i, *byte) {
            return None;
        }
    }
    Some(at + word.len())
}

// The number whose digits go on at `at`, where `first` is the value of those before; none is from 2^64 on.
// By `enumerate`, as the place is answered: `position`, and a `try_fold` of what stands before it, would be two passes.
fn digits(text: &[u8], at: usize, first: u64) -> Option<Found<u64>>
    requires { at ≤ length text.now }
    ensures { found_in text.now result ≡ readDigits first (from text.now at) }
{
    let mut value = first;
    for (i, byte) in text[at..].iter().enumerate() {
        if !byte.is_ascii_digit() {
            let next = at + i;
            return Some(Found { value, next });
        }
        let digit = u64::from(*byte - b'0');
        let tens = value.checked_mul(10)?;
        value = tens.checked_add(digit)?;
    }
    let next = text.len();
    Some(Found { value, next })
}

// The number at a place, where there is one below 2^64.
pub fn number(text: &[u8], at: usize) -> Option<Found<u64>>
    ensures { found_in text.now result ≡ read_number (from text.now at) }
{
    let first = *text.get(at)?;
    if !first.is_ascii_digit() {
        return None;
    }
    let next = at + 1;
    if first == b'0' {
        return Some(Found { value: 0, next });
    }
    digits(text, next, u64::from(first - b'0'))
}
