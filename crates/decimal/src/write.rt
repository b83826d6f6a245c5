// Bytes put into a lent buffer, one piece behind the other.
ghost use Rattle.std.specs.Prelude.{[], ◌∷◌, ◌+◌, ◌≤◌, ◌<◌, length};
ghost use Rattle.decimal.specs.Decimal.{decimal};
ghost use Rattle.decimal.specs.Write.{Puts};

// A lent buffer, and the place where the next piece goes.
#[derive(Drop)]
pub struct Writer<'a> {
    pub out: &'a mut [u8],
    pub at: usize,
}

impl<'a> Writer<'a> {
    pub fn put(&mut self, word: &[u8])
        requires { self.old.at + length word.now ≤ length self.old.out.now }
        ensures { Puts self.old self.new word.now }
    {
        let end = self.at + word.len();
        self.out[self.at..end].copy_from_slice(word);
        self.at = end;
    }

    fn put_digit(&mut self, digit: u64)
        requires { (self.old.at < length self.old.out.now) × (digit < 10) }
        ensures { Puts self.old self.new ((48 + digit) ∷ []) }
    {
        self.out[self.at] = b'0' + digit as u8;
        self.at += 1;
    }

    // The digits of `n`.
    // By hand, since `write!` into a slice promises its bytes only where it succeeds, and no clause of std says when it does.
    pub fn put_number(&mut self, n: u64)
        requires { self.old.at + length (decimal n) ≤ length self.old.out.now }
        ensures { Puts self.old self.new (decimal n) }
    {
        if n < 10 {
            self.put_digit(n);
            return;
        }
        self.put_number(n / 10);
        self.put_digit(n % 10);
    }
}
