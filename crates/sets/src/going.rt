// Going through a set.
ghost use Rattle.std.specs.Prelude.{◌≡◌};
ghost use Rattle.std.specs.Iterator.{YieldsFirst, item_count};
ghost use Rattle.bitset.specs.Members.{members};

// The members of a set that are still to come, the lowest first.
#[derive(Drop)]
pub struct Members {
    pub left: u64,
}

impl Members {
    pub(crate) fn new(word: u64) -> Members
        ensures { result.left ≡ word }
    {
        Members { left: word }
    }
}

impl Iterator for Members {
    type Item = u32;

    ghost next_gives = { YieldsFirst (λ s. members 64 s.left) };

    ghost remaining = { item_count (λ s. members 64 s.left) };

    fn next(&mut self) -> Option<u32> {
        if self.left == 0 {
            return None;
        }
        let lowest = self.left.trailing_zeros();
        self.left &= self.left - 1;
        Some(lowest)
    }
}
