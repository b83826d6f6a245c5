// What a call answered as a number and four values.
ghost use Rattle.std.specs.Prelude.{◌≡◌, ◌≤◌, length, eqb, IfSome, refl};
ghost use Rattle.store.specs.Answers.{Answer, answered, done, Done, Size, Read, Refreshed};
ghost use Rattle.store.specs.Calls.{number};
ghost use Rattle.encoding.specs.Called.{reply_of, state_given, showing, step_shown, Looked};
ghost use Rattle.encoding.specs.Called.{values as valuesOf};

use crate::state_bytes;
use config::{Numbers, Refusal};
use store::{ChecksumRefresh, State};

const ANSWER_NUMBERS: usize = 4;

// What a call answers where it is not refused.
pub trait Values {
    ghost answer: { Self → Answer };

    // 0 where there is none.
    fn values(self) -> [u64; ANSWER_NUMBERS]
        ensures { result ≡ valuesOf (answer self) };

    ghost accepted: { (x : Self) → number (answer x) ≡ 0 };
}

impl Values for () {
    ghost answer = { λ x. Done };

    ghost accepted = { λ x. refl };

    fn values(self) -> [u64; ANSWER_NUMBERS] {
        [0; ANSWER_NUMBERS]
    }
}

// A size, a count of bytes or a checksum.
impl Values for u64 {
    ghost answer = { Size };

    ghost accepted = { λ x. refl };

    fn values(self) -> [u64; ANSWER_NUMBERS] {
        [self, 0, 0, 0]
    }
}

impl Values for bool {
    ghost answer = { Read };

    ghost accepted = { λ x. refl };

    fn values(self) -> [u64; ANSWER_NUMBERS] {
        [u64::from(self), 0, 0, 0]
    }
}

impl Values for ChecksumRefresh {
    ghost answer = { Refreshed };

    ghost accepted = { λ x. refl };

    fn values(self) -> [u64; ANSWER_NUMBERS] {
        [
            u64::from(self.complete),
            self.checksum,
            self.scanned_bytes,
            self.db_size,
        ]
    }
}

// The number is 0 where a call was accepted.
#[derive(Clone, Copy)]
struct Reply {
    number: u64,
    values: [u64; ANSWER_NUMBERS],
}

impl<T: Values> From<Result<T, Refusal>> for Reply {
    ghost from_gives = { λ given reply. reply ≡ reply_of (answered T.answer given) };

    fn from(given: Result<T, Refusal>) -> Reply {
        match given {
            Ok(value) => Reply {
                number: 0,
                values: value.values(),
            },
            Err(refusal) => {
                let n = Numbers::from(refusal);
                Reply {
                    number: n.number,
                    values: [n.first, n.second, 0, 0],
                }
            }
        }
    }
}

// The state of a call, where the call can be answered in what it was lent.
pub fn given(state: &[u8], answer: &[u64]) -> Option<State>
    ensures state { result ≡ state_given state.now answer.now }
    ensures long { IfSome result (λ s. (length state.now ≡ 336) × (4 ≤ length answer.now)) }
{
    if state.len() != state_bytes::STATE_BYTES {
        return None;
    }
    if answer.len() < ANSWER_NUMBERS {
        return None;
    }
    Some(state_bytes::decode(state))
}

// The number of a call that shows no values.
pub fn number(given: Result<(), Refusal>) -> u64
    ensures { result ≡ number (done given) }
{
    Reply::from(given).number
}

// Whether what the call was lent is too short, so that it changes nothing.
fn is_short<T: Values>(given: &Result<T, Refusal>) -> bool
    ensures { result ≡ eqb (number (answered T.answer given.now)) 35 }
{
    matches!(given, Err(Refusal::BufferTooShort))
}

// The answer's values go to a caller, and its number is the result; where the call was lent too little, nothing changes.
pub fn tell<T: Values>(given: Result<T, Refusal>, answer: &mut [u64]) -> u64
    requires { 4 ≤ length answer.old }
    ensures { Looked (answered T.answer given) answer.old result answer.new }
{
    let short = is_short(&given);
    let reply = Reply::from(given);
    if !short {
        memory::write(answer, 0, &reply.values);
    }
    reply.number
}

// The same of a call that has a state to call with next.
pub fn show<T: Values>(
    s: &State,
    given: Result<T, Refusal>,
    state: &mut [u8],
    answer: &mut [u64],
) -> u64
    requires { (length state.old ≡ 336) × (4 ≤ length answer.old) }
    ensures { showing result state.new answer.new ≡ step_shown state.old answer.old s.now (answered T.answer given) }
{
    if !is_short(&given) {
        state_bytes::encode(*s, state);
    }
    tell(given, answer)
}
