// The test that building makes of the lengths of the lists: ground 2.
// Not here: the numbers of the lists (`list_numbers`), the limits and the tests of one face (`building_tests`).
// Contract: `counts_fit`. Definitions: `Lists` of `built_meshes`.
#![tactic(auto)]

ghost use Rattle.std.specs.Prelude.{◌≡◌, ◌≤◌, length, get_or};
ghost use Rattle.closed_meshes.specs.Renumbering.{sum_to};
ghost use Rattle.built_meshes.specs.Lists.{firsts_counted, counts_fit};
ghost use Rattle.built_meshes.specs.Lent.{lists_of};
ghost use Rattle.building_tests.specs.Lent.{limits_of};

use building_tests::Bounds;
use built_meshes::{LentLists, Version};
use tables::{POSITION_WIDTH, index};

// The sum of all words.
fn sum_of(words: &[u32]) -> usize
    requires { length words.now ≤ 16387 }
    ensures { result ≡ sum_to (length words.now) (λ k. get_or words.now k 0) }
{
    let mut sum = 0;
    for k in 0..words.len() {
        sum += index(words[k]);
    }
    sum
}

// Whether there are as many first points as sides, where the version looks at them.
fn firsts_counted(lists: &LentLists) -> bool
    ensures { result ≡ firsts_counted lists.now.version (lists_of lists.now) }
{
    match lists.version {
        Version::One => true,
        Version::Two => lists.firsts.len() == lists.sides.len(),
    }
}

// Whether the lists are within the limits and their lengths agree.
pub fn counts_fit(lists: &LentLists, bounds: Bounds) -> bool
    ensures { result ≡ counts_fit (limits_of bounds) (lists_of lists.now) }
{
    let most = bounds.most();
    if most.points < lists.coordinates.len() / POSITION_WIDTH {
        return false;
    }
    if most.faces < lists.sides.len() / 4 {
        return false;
    }
    if most.listed < lists.listed.len() {
        return false;
    }
    if lists.coordinates.len() % POSITION_WIDTH != 0 {
        return false;
    }
    if lists.sides.len() % 4 != 0 {
        return false;
    }
    if lists.listed.len() != lists.beside.len() {
        return false;
    }
    if sum_of(lists.sides) != lists.listed.len() {
        return false;
    }
    firsts_counted(lists)
}
