// Sets of small numbers, each kept in one word: the code for every kind. A kind is a type of its own, which says how it is made of a word
// and read as one; sets of two kinds do not mix.
#![tactic(auto)]

mod going;

ghost use Rattle.std.specs.Prelude.{◌≡◌, false, not, ◌&&◌, ◌||◌, ℕ, eqb, ltb};
ghost use Rattle.bitset.specs.Decides.{Decides};
ghost use Rattle.bitset.specs.Members.{has, ◌⊆◌, size, Lowest};

pub use going::Members;

// A set of numbers below 64. No number past the width is ever a member, so that every method takes whatever it is given.
pub trait BitSet: Copy {
    // The number that the set is: member k weighs 2^k.
    ghost number: { Self → ℕ };

    // The set that a word is.
    fn of(word: u64) -> Self
        ensures { number result ≡ word };

    // The set as a word.
    fn word(self) -> u64
        ensures { result ≡ number self };

    // No members.
    fn empty() -> Self
        ensures { (k : ℕ) → has (number result) k ≡ false }
    {
        Self::of(0)
    }

    // The member k alone; no members if k is past the width.
    fn single(k: u32) -> Self
        ensures { (j : ℕ) → has (number result) j ≡ eqb j k && ltb k 64 }
    {
        if k < 64 {
            Self::of(1 << k)
        } else {
            Self::of(0)
        }
    }

    // Every member below n; all if n is past the width.
    fn below(n: u32) -> Self
        ensures { (k : ℕ) → has (number result) k ≡ ltb k n && ltb k 64 }
    {
        if n < 64 {
            let bit = 1 << n;
            let lower = bit - 1;
            Self::of(lower)
        } else {
            Self::of(u64::MAX)
        }
    }

    // Whether k is a member.
    fn contains(self, k: u32) -> bool
        ensures { result ≡ has (number self) k }
    {
        let word = self.word();
        if k < 64 { (word >> k) & 1 == 1 } else { false }
    }

    // The set with k; as it is if k is past the width.
    fn with(self, k: u32) -> Self
        ensures { (j : ℕ) → has (number result) j ≡ has (number self) j || (eqb j k && ltb k 64) }
    {
        if k < 64 {
            let bit = 1 << k;
            Self::of(self.word() | bit)
        } else {
            self
        }
    }

    // The set without k.
    fn without(self, k: u32) -> Self
        ensures { (j : ℕ) → has (number result) j ≡ has (number self) j && not (eqb j k) }
    {
        let word = self.word();
        if k < 64 {
            let bit = 1 << k;
            Self::of(word & !bit)
        } else {
            self
        }
    }

    // The members of either.
    fn union(self, other: Self) -> Self
        ensures { (k : ℕ) → has (number result) k ≡ has (number self) k || has (number other) k }
    {
        Self::of(self.word() | other.word())
    }

    // The members of both.
    fn intersection(self, other: Self) -> Self
        ensures { (k : ℕ) → has (number result) k ≡ has (number self) k && has (number other) k }
    {
        Self::of(self.word() & other.word())
    }

    // The members that the other lacks.
    fn difference(self, other: Self) -> Self
        ensures { (k : ℕ) → has (number result) k ≡ has (number self) k && not (has (number other) k) }
    {
        Self::of(self.word() & !other.word())
    }

    // Whether there are no members.
    fn is_empty(self) -> bool
        ensures { result ≡ eqb (number self) 0 }
    {
        self.word() == 0
    }

    // Whether every member is a member of the other.
    fn is_subset(self, other: Self) -> bool
        ensures { Decides result (number self ⊆ number other) }
    {
        self.word() & other.word() == self.word()
    }

    // How many members there are.
    fn size(self) -> u32
        ensures { result ≡ size 64 (number self) }
    {
        self.word().count_ones()
    }

    // The lowest member; 64 if there is none, as `trailing_zeros` answers, and not an Option: `Lowest` says it so. `members` gives one.
    fn lowest(self) -> u32
        ensures { Lowest 64 (number self) result }
    {
        self.word().trailing_zeros()
    }

    // The set without its lowest member.
    fn without_lowest(self) -> Self
        ensures { (j : ℕ) → Lowest 64 (number self) j → (k : ℕ) → has (number result) k ≡ has (number self) k && not (eqb k j) }
    {
        let word = self.word();
        if word == 0 {
            self
        } else {
            Self::of(word & (word - 1))
        }
    }

    // The members, rising.
    fn members(self) -> Members
        ensures { result.left ≡ number self }
    {
        Members::new(self.word())
    }
}
