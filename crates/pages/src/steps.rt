// The steps of the memory: pages move, nodes are marked, a sync settles them; and what is looked for in it.
ghost use Rattle.std.specs.Prelude.{◌≡◌, ◌+◌, ◌-◌, ◌*◌, ◌<◌, ◌≤◌, ◌&&◌, ◌||◌, if◌then◌else◌, ◌==◌, IfSome, length, nat_eq, nat_le, nat_lt, not};
ghost use Rattle.paging.specs.Layout.{numbers, rooms, inner, last_node};
ghost use Rattle.paging.specs.Memory.{bare, mark, moved, placed, durable, settled, settled_at, settled_from, cleaned, cleaned_below, tidied, selected, vacant, find_down, free, target, find_blank, spare_from, with_dirty};
ghost use Rattle.pages.specs.Flags.{as_place, claimed, with_flag, with_place, Twice};
ghost use Rattle.pages.specs.Of.{CanSet, IsNode, IsPage, IsPlace, Steps, lent_to, page_told, seen};

use crate::flags::{Flag, Version};
use crate::geometry::{CHILDREN, Card, DEPTH, LEAF_PAGES, child_of};
use crate::memory::{Memory, Words};

// Below which physical page a vacant one is looked for, once a page came from one place to another.
fn cursor(place: Option<u64>, was: Option<u64>, next: u64) -> u64
    ensures { result ≡ (if nat_eq (as_place place) 0 || as_place place == as_place was then next else as_place place - 1) }
{
    match place {
        Some(p) if place != was => p,
        _ => next,
    }
}

impl<'a> Memory<'a> {
    // No card is there yet.
    pub(crate) fn new(cells: &'a mut [u64]) -> Memory<'a>
        ensures { seen result ≡ bare 0 }
    {
        Memory {
            words: Words::new(cells),
            left: 0,
            next: 0,
        }
    }

    // Nothing is known of the card yet: all pages are blank.
    pub(crate) fn clear(&mut self, card: Card)
        requires { 2 * numbers card.sectors ≤ lent_to self.old.words }
        ensures { seen self.new ≡ bare card.sectors }
    {
        self.words.clear(card);
        self.left = card.rooms();
        self.next = card.rooms();
    }

    // A place is taken, or given up, by the pages as they are or by the synced ones.
    fn claim(&mut self, version: Version, place: Option<u64>, had: bool)
        requires { IsPlace self.old place }
        ensures { Steps self.old self.new (claimed version (as_place place) had (seen self.old)) }
    {
        let Some(p) = place else {
            return;
        };
        let was = self.words.is_vacant(p);
        self.words.set(version.owner(), p, had);
        let will = self.words.is_vacant(p);
        self.left = self.left + u64::from(will) - u64::from(was);
    }

    // The place of a page in one of the versions; the physical pages are claimed apart.
    fn set_place(&mut self, version: Version, n: u64, place: Option<u64>)
        requires { IsPage self.old n × IsPlace self.old place }
        ensures { Steps self.old self.new (with_place version n (as_place place) (seen self.old)) }
    {
        self.words.set_place(version, n, place);
    }

    // A flag of a page or of a node; those of physical pages are set by `claim`.
    pub(crate) fn set(&mut self, flag: Flag, i: u64, on: bool)
        requires { CanSet flag self.old i }
        ensures { Steps self.old self.new (with_flag flag i on (seen self.old)) }
    {
        self.words.set(flag, i, on);
    }

    // The page n comes to be at a place. Inline, as coming up does it for each page of the card.
    #[inline(always)]
    pub(crate) fn relocate(&mut self, n: u64, place: Option<u64>)
        requires { IsPage self.old n × IsPlace self.old place }
        ensures { Steps self.old self.new (placed n (as_place place) (seen self.old)) }
    {
        let was = self.words.place(Version::Now, n);
        let next = cursor(place, was, self.next);
        self.claim(Version::Now, was, false);
        self.claim(Version::Now, place, true);
        self.set_place(Version::Now, n, place);
        self.next = next;
    }

    // A node of the map below the root, and all above it, are to be written.
    fn mark(&mut self, node: u64)
        requires { (0 < node) × IsNode self.old node }
        ensures { Steps self.old self.new (with_dirty (mark node node (seen self.old).dirty) (seen self.old)) }
    {
        // Up from node to node above it: no index is counted.
        let mut k = node;
        while k > 0 {
            self.set(Flag::Dirty, k, true);
            k = (k - 1) / CHILDREN;
        }
        self.set(Flag::Dirty, 0, true);
    }

    // The page n comes to be at a place, volatile or not, and its leaf is to be written.
    pub(crate) fn move_page(&mut self, n: u64, place: Option<u64>, volatile: bool)
        requires { IsPage self.old n × IsPlace self.old place }
        ensures { Steps self.old self.new (moved n (as_place place) volatile (seen self.old)) }
    {
        let leaf = self.words.card.leaf_of(n);
        self.relocate(n, place);
        self.mark(leaf);
        self.set(Flag::Volatile, n, volatile);
    }

    // Where a sync leaves the page n.
    pub(crate) fn durable_of(&self, n: u64) -> Option<u64>
        requires { IsPage self.now n }
        ensures { as_place result ≡ durable (seen self.now) n }
    {
        if self.words.has(Flag::Volatile, n) {
            None
        } else {
            self.words.place(Version::Now, n)
        }
    }

    // The page n has been synced. Inline, as coming up does it for each page of the card.
    #[inline(always)]
    pub(crate) fn settle(&mut self, n: u64)
        requires { IsPage self.old n }
        ensures { Steps self.old self.new (settled n (seen self.old)) }
    {
        let place = self.durable_of(n);
        let was = self.words.place(Version::Synced, n);
        self.claim(Version::Synced, was, false);
        self.claim(Version::Synced, place, true);
        self.set_place(Version::Synced, n, place);
    }

    // The same, where there is such a page.
    fn settle_at(&mut self, n: u64)
        ensures { Steps self.old self.new (settled_at n (seen self.old)) }
    {
        if n < self.words.card.pages() {
            self.settle(n);
        }
    }

    // The pages of a leaf, from its first one on, have been synced. That the first is within the card stands in three contracts: a word for it would be no shorter.
    fn settle_leaf(&mut self, first: u64)
        requires { first ≤ self.old.words.card.sectors }
        ensures { Steps self.old self.new (settled_from 64 first (seen self.old)) }
    {
        for i in 0..LEAF_PAGES {
            self.settle_at(first + i);
        }
    }

    // The pages of a node, if it is a leaf, have been synced.
    fn settle_node(&mut self, node: u64)
        requires { IsNode self.old node }
        ensures { Steps self.old self.new (if nat_lt node (inner self.old.words.card.sectors) then seen self.old else settled_from 64 (64 * (node - inner self.old.words.card.sectors)) (seen self.old)) }
    {
        let inner = self.words.card.inner();
        if node >= inner {
            self.settle_leaf(LEAF_PAGES * (node - inner));
        }
    }

    // A node below the root has been synced: its other slot counts from now on.
    fn clean(&mut self, node: u64)
        requires { (0 < node) × IsNode self.old node }
        ensures { Steps self.old self.new (cleaned node (seen self.old)) }
    {
        self.settle_node(node);
        let second = self.words.has(Flag::Slot, node);
        self.set(Flag::Slot, node, !second);
        self.set(Flag::Dirty, node, false);
    }

    // Whether there is such a node below the root, and it is to be written.
    pub(crate) fn is_marked(&self, node: u64) -> bool
        requires { 0 < node }
        ensures { result ≡ (nat_le node (last_node self.now.words.card.sectors) && (seen self.now).dirty node) }
    {
        node <= self.words.card.last_node() && self.words.has(Flag::Dirty, node)
    }

    // The marked nodes below a node have been synced, each after those below it.
    fn clean_below(&mut self, depth: u8, node: u64)
        requires { IsNode self.old node }
        ensures { Steps self.old self.new (cleaned_below depth node (seen self.old)) }
    {
        if depth == 0 || node >= self.words.card.inner() {
            return;
        }
        for b in 0..CHILDREN {
            let child = child_of(node, b);
            if self.is_marked(child) {
                self.clean_below(depth - 1, child);
                self.clean(child);
            }
        }
    }

    // All marked nodes of a card have been synced.
    pub(crate) fn tidy(&mut self)
        requires { 0 < self.old.words.card.sectors }
        ensures { Steps self.old self.new (tidied (seen self.old)) }
    {
        self.clean_below(DEPTH, 0);
        self.set(Flag::Dirty, 0, false);
    }

    // Which slot of a node counts after the sync that is under way; of what is no node the first, as its bit in a sector is 0.
    pub(crate) fn slot_after(&self, node: u64) -> bool
        ensures { result ≡ selected (seen self.now) node }
    {
        if node == 0 || node > self.words.card.last_node() {
            return false;
        }
        let second = self.words.has(Flag::Slot, node);
        if self.words.has(Flag::Dirty, node) {
            !second
        } else {
            second
        }
    }

    // The last vacant physical page below one.
    fn find_down(&self, below: u64) -> Option<u64>
        requires { below ≤ rooms self.now.words.card.sectors }
        ensures { as_place result ≡ find_down below (vacant (seen self.now).busy (seen self.now).held) }
    {
        (0..below).rev().find(|p| self.words.is_vacant(*p))
    }

    // A vacant physical page, below the cursor first.
    fn free(&self) -> Option<u64>
        ensures { as_place result ≡ free (seen self.now) }
    {
        if self.left == 0 {
            return None;
        }
        let rooms = self.words.card.rooms();
        match self.find_down(self.next.min(rooms)) {
            None => self.find_down(rooms),
            near => near,
        }
    }

    // Whether only the pages as they are may have a physical page.
    fn is_own(&self, p: u64) -> bool
        requires { p < rooms self.now.words.card.sectors }
        ensures { result ≡ not ((seen self.now).held p) }
    {
        !self.words.has(Flag::Held, p)
    }

    // Where a page that lies at a place is to be written: there, unless the synced pages have it too.
    pub(crate) fn target(&self, place: Option<u64>) -> Option<u64>
        requires { IsPlace self.now place }
        ensures { as_place result ≡ target (seen self.now) (as_place place) }
    {
        match place {
            Some(p) if self.is_own(p) => Some(p),
            _ => self.free(),
        }
    }

    fn is_blank(&self, n: u64) -> bool
        requires { IsPage self.now n }
        ensures { result ≡ nat_eq ((seen self.now).now n) 0 }
    {
        self.words.place(Version::Now, n).is_none()
    }

    // The first blank page from one number on, below another.
    fn find_blank(&self, from: u64, to: u64) -> Option<u64>
        requires { to ≤ numbers self.now.words.card.sectors }
        ensures told { page_told result ≡ find_blank (seen self.now) (to - from) from }
        ensures within { IfSome result (λ n. (from ≤ n) × (n < to)) }
    {
        (from..to).find(|n| self.is_blank(*n))
    }

    // A blank page: the first from a number on, else from 1 on.
    pub(crate) fn spare_from(&self, from: u64) -> Option<u64>
        ensures told { page_told result ≡ spare_from (seen self.now) from }
        ensures real { IfSome result (λ n. 0 < n) }
    {
        let pages = self.words.card.pages();
        let first = from.max(1).min(pages);
        match self.find_blank(first, pages) {
            None => self.find_blank(1, first),
            near => near,
        }
    }

    // The two physical pages of a page that lies elsewhere than it was synced.
    pub(crate) fn two_places(&self, n: u64) -> Option<(u64, u64)>
        requires { IsPage self.now n }
        ensures { Twice (seen self.now) n result }
    {
        if self.words.is_unmoved(n) {
            return None;
        }
        let now = self.words.place(Version::Now, n)?;
        let synced = self.words.place(Version::Synced, n)?;
        Some((now, synced))
    }
}
