// Entries with a key and a tag, and a number that is folded from a list of them.

use order_merge::Entry;
use std::cmp::Ordering;

#[derive(Clone, Copy, Debug, PartialEq)]
pub struct Mark {
    pub key: u64,
    pub anti: bool,
    pub tag: u64,
}

impl Entry for Mark {
    ghost use Rattle.std.specs.Ordering.{nat_cmp};
    ghost use Rattle.order_merge.specs.laws.Numbers.{nat_cmp-IsKeyOrder};

    type Key = u64;

    ghost reading = { record { key_of = λ e. e.key; is_anti = λ e. e.anti; order = nat_cmp } };

    fn key(&self) -> u64 {
        self.key
    }

    fn anti(&self) -> bool {
        self.anti
    }

    fn compare(a: &u64, b: &u64) -> Ordering {
        a.cmp(b)
    }

    ghost key_order = { nat_cmp-IsKeyOrder };
}

pub fn folded(marks: &[Mark]) -> u32 {
    let mut total: u32 = 0;
    for mark in marks {
        let code = mark
            .key
            .wrapping_mul(16)
            .wrapping_add(if mark.anti { 8 } else { 0 })
            .wrapping_add(mark.tag)
            .wrapping_add(1);
        total = total
            .wrapping_mul(16_777_619)
            .wrapping_add((code % 65_536) as u32);
    }
    total
}
