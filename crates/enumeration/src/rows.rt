// The rows that a search finds, in two lent areas.
ghost use Rattle.std.specs.Prelude.{◌≡◌, [], ◌∷◌, ◌≤◌, set};
ghost use Rattle.branches.specs.Enumeration.{row_of};
ghost use Rattle.enumeration.specs.Capacity.{Capacity};

use branches::Branch;
use node_set::NodeWord;

// The word at place n, where the area has one.
fn put_word(area: &mut [u64], n: usize, word: u64)
    ensures { area.new ≡ set area.old n word }
{
    if n < area.len() {
        area[n] = word;
    }
}

// The rows found so far: the areas have the first of them, as far as they reach, and `count` is how many there are, at most one past the limit.
#[derive(Drop)]
pub(crate) struct Rows<'a> {
    pub cuts: &'a mut [u64],
    pub sides: &'a mut [NodeWord],
    pub count: usize,
    pub limit: usize,
    ghost room: { Capacity count limit cuts.now sides.now },
}

impl Rows<'_> {
    ghost use Rattle.enumeration.specs.Rows.{Same, RowsPut};

    // Puts the row of a branch without a candidate behind the others.
    pub(crate) fn put(&mut self, b: Branch)
        requires { self.old.count ≤ self.old.limit }
        ensures same { Same self.old self.new }
        ensures put { RowsPut (row_of b ∷ []) self.old self.new }
    {
        put_word(self.cuts, self.count, b.cut.0);
        put_word(self.sides, self.count, b.side.0);
        self.count += 1;
    }
}
