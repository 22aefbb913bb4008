// Numerals and fields of text in a lent buffer.
#![tactic(auto)]

ghost use Rattle.std.specs.Prelude.{◌≡◌, [], ◌∷◌, ◌++◌, ◌+◌, ◌≤◌, ◌<◌, length};
ghost use Rattle.format.specs.Bytes.{stored};
ghost use Rattle.format.specs.Listing.{decimal};
ghost use Rattle.text.specs.Numerals.{Laid};

// Stores the digits of `v` from `at` on. Answers the place behind them: the contract speaks of the whole buffer. A recursion, as the
// last digit is the first that is known.
#[tactic(auto, using(crate::specs::Numerals::numeral_steps))]
pub fn put_decimal(out: &mut [u8], at: usize, v: usize) -> usize
    requires { at + length (decimal v) ≤ length out.old }
    ensures { (result ≡ at + length (decimal v)) × (out.new ≡ stored out.old at (decimal v)) }
{
    if v < 10 {
        out[at] = b'0' + v as u8;
        return at + 1;
    }
    let last = put_decimal(out, at, v / 10);
    out[last] = b'0' + (v % 10) as u8;
    last + 1
}

// A lent buffer, and how many of its bytes are written. The length stands beside it: with no heap, what is written and what is left
// lie in one buffer, and the contracts speak of all of it.
#[derive(Drop)]
pub struct Line<'a> {
    pub out: &'a mut [u8],
    pub len: usize,
}

impl<'a> Line<'a> {
    // Adds the digits of `v`, and `mark` behind them. Tried: a method that stores the mark, for `text` too; its clauses are longer than both tails.
    pub fn number(&mut self, v: usize, mark: u8)
        requires { self.old.len + length (decimal v) < length self.old.out.now }
        ensures same_reference { self.new.out.ghost_name ≡ self.old.out.ghost_name }
        ensures len { length self.new.out.now ≡ length self.old.out.now }
        ensures laid { Laid self.old.out.now self.old.len (decimal v ++ (mark ∷ [])) self.new.out.now self.new.len }
    {
        let end = put_decimal(self.out, self.len, v);
        self.out[end] = mark;
        self.len = end + 1;
    }

    // Adds the bytes of `s`, and `mark` behind them.
    pub fn text(&mut self, s: &[u8], mark: u8)
        requires { self.old.len + length s.now < length self.old.out.now }
        ensures same_reference { self.new.out.ghost_name ≡ self.old.out.ghost_name }
        ensures len { length self.new.out.now ≡ length self.old.out.now }
        ensures laid { Laid self.old.out.now self.old.len (s.now ++ (mark ∷ [])) self.new.out.now self.new.len }
    {
        slices::put(self.out, self.len, s);
        let end = self.len + s.len();
        self.out[end] = mark;
        self.len = end + 1;
    }
}
