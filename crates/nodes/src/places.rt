// Places among the entries of a node, on any bytes. `within` follows from what a place is, and is said so that no caller has to show it. For now they are found by going through all entries; the contracts do not depend on that.

ghost use Rattle.std.specs.Prelude.{◌≡◌, ◌-◌, ◌^◌, ◌<◌, ◌≤◌, length, take};
ghost use Rattle.std.specs.Result.{MatchResult};
ghost use Rattle.nodes.specs.Entries.{weight_of, front_count};
ghost use Rattle.nodes.specs.Firsts.{first_from, first_after, found};
ghost use Rattle.nodes.specs.Page.{entries_of};

use crate::raw::EXTRA;
use crate::read::NodePage;

// Entries from the first one on: how many, and what they weigh.
#[derive(Debug, Default, Clone, Copy, PartialEq, Eq)]
pub struct Front {
    pub count: usize,
    pub weight: usize,
}

impl NodePage<'_> {
    // The first entry whose key is not before the one given: Ok where it is that key, Err where that key would stand.
    pub fn find(&self, sought: &[u8]) -> Result<usize, usize>
        ensures is { result ≡ found sought.now (entries_of self.now.page.now) }
        ensures within { let n = length (entries_of self.now.page.now) in MatchResult result (λ at. at < n) (λ at. at ≤ n) }
    {
        let at = self.first_from(sought);
        if at < self.count() && sought == self.key(at) {
            Ok(at)
        } else {
            Err(at)
        }
    }

    // The first entry whose key is not before the one given. Only the test is another one than in `next_after`: a function over the test would be no plainer, since each caller would still have to say what the test means.
    fn first_from(&self, sought: &[u8]) -> usize
        ensures is { result ≡ first_from sought.now (entries_of self.now.page.now) }
        ensures within { result ≤ length (entries_of self.now.page.now) }
    {
        let place = self.entries().position(|(key, _)| key >= sought);
        place.unwrap_or(self.count())
    }

    // The first entry whose key is after the one given.
    pub fn next_after(&self, sought: &[u8]) -> usize
        ensures is { result ≡ first_after sought.now (entries_of self.now.page.now) }
        ensures within { result ≤ length (entries_of self.now.page.now) }
    {
        let place = self.entries().position(|(key, _)| sought < key);
        place.unwrap_or(self.count())
    }

    // The last entry whose key is at most the one given, where keys rise; the first where there is none.
    pub fn child_index(&self, sought: &[u8]) -> usize
        ensures is { result ≡ first_after sought.now (entries_of self.now.page.now) - 1 }
        ensures within { result ≤ length (entries_of self.now.page.now) }
    {
        self.next_after(sought).saturating_sub(1)
    }

    // The shortest front that weighs at least so much; all entries, where they weigh less.
    pub fn front_count(&self, target: usize) -> Front
        ensures count { result.count ≡ front_count target (entries_of self.now.page.now) }
        ensures weight { result.weight ≡ weight_of (take result.count (entries_of self.now.page.now)) }
        ensures within { result.count ≤ length (entries_of self.now.page.now) }
        ensures light { result.weight < 2 ^ 32 }
    {
        let mut front = Front::default();
        for (key, value) in self.entries() {
            if front.weight >= target {
                break;
            }
            front.count += 1;
            front.weight += key.len() + value.len() + EXTRA;
        }
        front
    }
}
