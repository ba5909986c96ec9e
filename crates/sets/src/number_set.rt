ghost use Rattle.std.specs.Prelude.{◌≡◌, not, ◌&&◌, ◌||◌, ◌==◌, nat_le, nat_lt};
ghost use Rattle.sets.specs.NumberSets.{has, no_number, set_of, word_of, Gathered};

use crate::{contains, insert};

// A set of numbers, in so many words: number n is bit n % 64 of word n / 64.
#[derive(Clone, Copy, PartialEq, Eq, Debug)]
pub struct NumberSet<const WORDS: usize> {
    words: [u64; WORDS],
}

impl<const WORDS: usize> NumberSet<WORDS> {
    // No number.
    pub fn empty() -> Self
        ensures { result ≡ no_number }
    {
        NumberSet { words: [0; WORDS] }
    }

    // The numbers below a count that pass, as far as there are words for them. What decides may be called at
    // any number: a call of a closure asks for that, and nothing else is asked.
    pub fn gathered<F: Fn(usize) -> bool>(count: usize, passes: F) -> Self
        requires { F.IsAlwaysCallable passes }
        ensures { Gathered (F.post passes) count result }
    {
        let mut words = [0; WORDS];
        for n in 0..count {
            if n / 64 < WORDS && passes(n) {
                words[n / 64] = insert(words[n / 64], n % 64);
            }
        }
        NumberSet { words }
    }

    // The numbers below a count that the set has, or that lie from a first one on before an end. By whole words, as
    // the next two: a class is made anew for each item of a set, and a test of every number would take far longer.
    pub fn with_span(self, count: usize, first: usize, end: usize) -> Self
        ensures { result ≡ set_of (λ n. nat_lt n count && (nat_le first n && nat_lt n end || has self.entry n)) }
    {
        let mut words = [0; WORDS];
        for i in 0..WORDS {
            let span = below(end, i) & !below(first, i);
            words[i] = (self.words[i] | span) & below(count, i);
        }
        NumberSet { words }
    }

    // The numbers below a count that the set has, and a number, if it is one of them.
    pub fn with(self, count: usize, n: usize) -> Self
        ensures { result ≡ set_of (λ m. nat_lt m count && (m == n || has self.entry m)) }
    {
        let mut words = [0; WORDS];
        for i in 0..WORDS {
            words[i] = (self.words[i] | single(n, i)) & below(count, i);
        }
        NumberSet { words }
    }

    // The numbers below a count that the set lacks.
    pub fn others(self, count: usize) -> Self
        ensures { result ≡ set_of (λ n. nat_lt n count && not (has self.entry n)) }
    {
        let mut words = [0; WORDS];
        for i in 0..WORDS {
            words[i] = !self.words[i] & below(count, i);
        }
        NumberSet { words }
    }

    pub fn has(&self, n: usize) -> bool
        ensures { result ≡ has self.now n }
    {
        n / 64 < WORDS && contains(self.words[n / 64], n % 64)
    }
}

// Word i of the set of one number.
fn single(n: usize, i: usize) -> u64
    ensures { result ≡ word_of (λ m. m == n) i }
{
    if i == n / 64 { 1 << (n % 64) } else { 0 }
}

// Word i of the numbers below a limit.
fn below(limit: usize, i: usize) -> u64
    ensures { result ≡ word_of (λ m. nat_lt m limit) i }
{
    if i < limit / 64 {
        !0
    } else if i == limit / 64 {
        (1 << (limit % 64)) - 1
    } else {
        0
    }
}
