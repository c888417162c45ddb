// Lists of sets of which none holds another, in lent rows: the unions of two lists, and a list tidied up, which is put in rising order and
// loses every set that holds another one.
#![tactic(auto)]

ghost use Rattle.std.specs.Prelude.{◌≡◌, ◌+◌, ◌*◌, ◌-◌, ◌≤◌, ◌<◌, length, drop, position};
ghost use Rattle.sorting.specs.Sorted.{Ascending};
ghost use Rattle.clutters.specs.Clutters.{inside};
ghost use Rattle.clutters.specs.Steps.{PartAt, UnitedWith, United, Tidied};

use ordering::sort_sets;

// Whether a set lies inside another.
fn lies_inside(part: u64, set: u64) -> bool
    ensures { result ≡ inside part set }
{
    part & set == part
}

// The place of the first set that lies inside the given one.
fn first_part(sets: &[u64], set: u64) -> Option<usize>
    ensures { result ≡ position (λ part. inside part set) sets.now }
{
    sets.iter().position(|part| lies_inside(*part, set))
}

// The place of a set that lies inside the given one. The set at the place `guess`, if there is one, is looked at first.
fn part_at(sets: &[u64], set: u64, guess: usize) -> Option<usize>
    ensures { PartAt sets.now set result }
{
    if guess < sets.len() && lies_inside(sets[guess], set) {
        return Some(guess);
    }
    first_part(sets, set)
}

// Writes the unions of a set with others from the first row on, and gives how many rows they take. If one of the others lies inside the
// set, every union holds the set, and it is written alone.
fn unite_with(unions: &mut [u64], set: u64, others: &[u64]) -> usize
    requires { length others.now ≤ length unions.old }
    ensures { UnitedWith set others.now unions.old unions.new result }
{
    let spared = first_part(others, set).is_some();
    if spared {
        unions[0] = set;
        return 1;
    }
    // By place, since no proof knows what is written through `iter_mut`.
    for k in 0..others.len() {
        let other = others[k];
        unions[k] = set | other;
    }
    others.len()
}

// Writes the unions of one of the first p sets and one of those at the places p to m from the place m on, and gives the place after them.
// Of unions that hold another some are left out. The lists and their unions stand in one area, as the caller lends it.
pub fn unite(rows: &mut [u64], p: usize, m: usize) -> usize
    requires { (p ≤ m) × (m + p * (m - p) ≤ length rows.old) }
    ensures { United p m rows.old rows.new result }
{
    let (lists, unions) = rows.split_at_mut(m);
    let (first, second) = lists.split_at(p);
    let mut end = 0;
    for set in first {
        end += unite_with(&mut unions[end..], *set, second);
    }
    m + end
}

// Keeps each of the sets from the place `from` on, which ascend, unless it holds one that is kept already: a part is never the larger
// number. Those that are kept come to stand in front. Gives how many they are.
fn sift(rows: &mut [u64], from: usize) -> usize
    requires { (from ≤ length rows.old) × Ascending (drop from rows.old) }
    ensures { Tidied (drop from rows.old) rows.old rows.new result }
{
    let mut kept: usize = 0;
    let mut part: usize = 0;
    // By place, since those that are kept are written in front of those still to be looked at.
    for i in from..rows.len() {
        let set = rows[i];
        // What lies inside a set often lies inside the next one too.
        match part_at(&rows[..kept], set, part) {
            Some(place) => part = place,
            None => {
                rows[kept] = set;
                part = kept;
                kept += 1;
            }
        }
    }
    kept
}

// Tidies up the sets from the place `from` on: those that hold no other of them come to stand in front, rising, each once. Gives how many
// they are.
pub fn tidy(rows: &mut [u64], from: usize) -> usize
    requires { from ≤ length rows.old }
    ensures { Tidied (drop from rows.old) rows.old rows.new result }
{
    sort_sets(&mut rows[from..]);
    sift(rows, from)
}
