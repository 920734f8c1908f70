// Where things are on a card of so many sectors.
ghost use Rattle.std.specs.Prelude.{◌≡◌, ◌<◌, ◌≤◌};
ghost use Rattle.paging.specs.Layout.{numbers, leaf_of, child, home, slot, inner as inner_of, last_node as last_node_of, rooms as rooms_of};
ghost use Rattle.pages.specs.Words.{IsSize};

pub(crate) const PAGE_SECTORS: u64 = 8;

// The pages of a leaf of the map, and the children of another node.
pub(crate) const LEAF_PAGES: u64 = 64;

pub(crate) const CHILDREN: u64 = 2048;

// The heap of nodes is never deeper below the root.
pub(crate) const DEPTH: u8 = 3;

// How large the card is: of no sectors, while no card is there. What its size comes to is worked out once, as coming up and a sync ask for it at each page and each node.
#[derive(Clone, Copy)]
pub(crate) struct Card {
    pub(crate) sectors: u64,
    pages: u64,
    inner: u64,
    last_node: u64,
    rooms: u64,
    ghost size: { IsSize sectors },
    ghost paged: { pages ≡ numbers sectors },
    ghost mapped: { (inner ≡ inner_of sectors) × (last_node ≡ last_node_of sectors) },
    ghost roomy: { rooms ≡ rooms_of sectors },
}

impl Card {
    pub(crate) fn new(sectors: u64) -> Card
        requires { IsSize sectors }
        ensures { result.sectors ≡ sectors }
    {
        let leaves = sectors.div_ceil(LEAF_PAGES * PAGE_SECTORS);
        let above = leaves / (CHILDREN - 1);
        let last_node = above + leaves;
        Card {
            sectors,
            pages: sectors.div_ceil(PAGE_SECTORS),
            inner: 1 + above,
            last_node,
            rooms: sectors.saturating_sub(2 + 2 * last_node) / PAGE_SECTORS,
        }
    }

    // How many pages there are.
    pub(crate) fn pages(self) -> u64
        ensures { result ≡ numbers self.sectors }
    {
        self.pages
    }

    // How many nodes of the map are no leaves.
    pub(crate) fn inner(self) -> u64
        ensures { result ≡ inner_of self.sectors }
    {
        self.inner
    }

    pub(crate) fn last_node(self) -> u64
        ensures { result ≡ last_node_of self.sectors }
    {
        self.last_node
    }

    // How many physical pages there are.
    pub(crate) fn rooms(self) -> u64
        ensures { result ≡ rooms_of self.sectors }
    {
        self.rooms
    }

    // The leaf of a page.
    pub(crate) fn leaf_of(self, n: u64) -> u64
        requires { n < numbers self.sectors }
        ensures { result ≡ leaf_of self.sectors n }
    {
        self.inner + n / LEAF_PAGES
    }

    // The first sector of a physical page.
    pub(crate) fn home(self, p: u64) -> u64
        requires { p ≤ self.sectors }
        ensures { result ≡ home self.sectors p }
    {
        2 + 2 * self.last_node + PAGE_SECTORS * p
    }
}

// The node that a bit of a node belongs to.
pub(crate) fn child_of(node: u64, bit: u64) -> u64
    requires { (node ≤ 1099511627776) × (bit < 2048) }
    ensures { result ≡ child node bit }
{
    CHILDREN * node + 1 + bit
}

// The sector of one of the two slots of a node.
pub(crate) fn slot_of(node: u64, second: bool) -> u64
    requires { node ≤ 1099511627776 }
    ensures { result ≡ slot node second }
{
    2 * node + u64::from(second)
}
