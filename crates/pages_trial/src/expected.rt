// What the pages of a small card should be, each known by one byte: 0 for a blank one.
pub const PAGES: usize = 1024;

// The byte is the page, so 0 is a page too: the blank one.
#[derive(Clone, Copy, Default)]
pub struct Page {
    pub now: u8,
    pub volatile: bool,
    pub synced: u8,
}

#[derive(Drop)]
pub struct Expected {
    pub pages: [Page; PAGES],
    // The one of the last sync.
    pub label: Option<u8>,
}

impl Expected {
    pub fn blank() -> Expected {
        Expected {
            pages: [Page::default(); PAGES],
            label: None,
        }
    }

    pub fn put(&mut self, n: usize, kind: u8, volatile: bool) {
        if let Some(page) = self.pages.get_mut(n) {
            page.now = kind;
            page.volatile = volatile && kind != 0;
        }
    }

    pub fn make_volatile(&mut self, n: usize) {
        if let Some(page) = self.pages.get_mut(n) {
            page.volatile = page.now != 0;
        }
    }

    pub fn is_blank(&self, n: u64) -> bool {
        self.pages.get(n as usize).is_some_and(|page| page.now == 0)
    }

    pub fn sync(&mut self, label: u8) {
        for page in &mut self.pages {
            page.synced = if page.volatile { 0 } else { page.now };
        }
        self.label = Some(label);
    }

    pub fn cut(&mut self) {
        for page in &mut self.pages {
            page.now = page.synced;
            page.volatile = false;
        }
    }
}

// The page that a byte stands for.
pub fn page_of(kind: u8) -> [u8; 4096] {
    let mut page = [kind; 4096];
    if kind != 0 {
        page[512] = kind ^ 85;
        page[4095] = kind ^ 170;
    }
    page
}

pub fn label_of(kind: u8) -> [u8; 248] {
    let mut label = [kind; 248];
    label[247] = kind ^ 85;
    label
}
