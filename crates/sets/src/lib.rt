// Numbers read as sets: bit x of a number says whether x belongs to the set.
// Position sets, masks and classes of symbols are all such numbers, and every later crate
// cites the laws that stand here.
#![tactic(auto)]

ghost use Rattle.std.specs.Prelude.{◌≡◌, ◌^◌, if◌then◌else◌, bit_or, nat_lt};
ghost use Rattle.sets.specs.Sets.{member};
ghost use Rattle.sets.specs.Laws.{SetLaws, Added};

mod number_set;

pub use number_set::NumberSet;

// Whether x belongs to the set; nothing from 64 up does.
// Its second clause says what belonging means for `|`, `&`, `!`, `count_ones` and equality, at any
// number of bits: the laws that proofs about sets rest on.
pub fn contains(set: u64, x: usize) -> bool
    ensures value { result ≡ member set x }
    ensures laws { SetLaws }
{
    x < 64 && (set >> x) & 1 == 1
}

// The set with x added; from 64 up there is no place for x, and the set stays as it is.
pub fn insert(set: u64, x: usize) -> u64
    ensures value { result ≡ (if nat_lt x 64 then bit_or set (2 ^ x) else set) }
    ensures added { Added 64 set x result }
{
    if x < 64 { set | (1 << x) } else { set }
}
