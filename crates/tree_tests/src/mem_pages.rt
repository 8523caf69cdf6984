// Pages in memory, of which all that have a number are lent.

use dev_model::{Failed, Pages};
use page_codec::PAGE_BYTES;

/// Pages in memory, the first pages that were asked for, how many that were, and one page that is never given.
#[derive(Drop)]
pub struct MemPages {
    pub pages: Vec<[u8; PAGE_BYTES]>,
    pub asked: [u32; 5],
    pub count: usize,
    pub refused: u32,
    pub faults: u64,
}

impl MemPages {
    /// These pages, each of which is given.
    pub fn new(pages: Vec<[u8; PAGE_BYTES]>) -> MemPages {
        MemPages {
            pages,
            asked: [0; 5],
            count: 0,
            refused: u32::MAX,
            faults: 0,
        }
    }

    /// From now on no page was asked for.
    pub fn forget(&mut self) {
        self.asked = [0; 5];
        self.count = 0;
    }

    /// Puts bytes on a page, where it is there.
    pub fn put(&mut self, page: u32, bytes: &[u8; PAGE_BYTES]) {
        if (page as usize) < self.pages.len() {
            self.pages[page as usize] = *bytes;
        }
    }

    /// Changes a byte of a page, where it is there.
    pub fn spoil(&mut self, page: usize, at: usize, byte: u8) {
        if page < self.pages.len() && at < PAGE_BYTES {
            let mut bytes = self.pages[page];
            bytes[at] = byte;
            self.pages[page] = bytes;
        }
    }
}

impl Pages for MemPages {
    ghost use Rattle.std.specs.Prelude.{None, nat_lt, ◌^◌};
    ghost use Rattle.tree_tests.specs.Lending.{page_fits};

    ghost lending = { λ pages. record { lent = λ page. nat_lt page (2 ^ 32); contents = None; faults = pages.faults } };

    ghost asked = { λ first second reads. Unit {0} };

    fn faults(&self) -> u64 {
        self.faults
    }

    fn read_page(&mut self, page: u32, buf: &mut [u8; 4096]) -> Result<(), Failed> {
        if self.count < 5 {
            self.asked[self.count] = page;
        }
        self.count = self.count.saturating_add(1);
        if page != self.refused && (page as usize) < self.pages.len() {
            *buf = self.pages[page as usize];
            Ok(())
        } else {
            self.faults = self.faults.saturating_add(1);
            Err(Failed)
        }
    }

    ghost lent_fits = { λ pages page h. page_fits page h };

    ghost asked_none = { λ pages. tt };

    ghost asked_then = { λ first second third xs ys so_far more. tt };
}
