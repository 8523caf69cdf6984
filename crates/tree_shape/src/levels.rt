//! The levels of a tree. The leaves are level 0; the pages of a level stand behind those of the levels below it, and the
//! root is the last page.

ghost use Rattle.std.specs.Prelude.{◌≡◌, ℕ, ◌+◌, ◌-◌, ◌*◌, ◌^◌, ◌<◌, ◌≤◌, suc};
ghost use Rattle.tree_shape.specs.Shape.{level_size, level_start, span, IsRoot, IsPlace};

/// How many rows a full leaf of a tree has, a full page above, and the whole tree.
#[derive(Clone, Copy, Debug, PartialEq, Eq)]
pub struct Shape {
    /// Rows of a full leaf.
    pub per_leaf: u16,
    /// Rows of a full page above the leaves.
    pub per_inner: u16,
    /// Rows of the list that the tree holds.
    pub rows: u32,
}

/// The image of a list of rows that begins at a page of the device.
#[derive(Clone, Copy, Debug, PartialEq, Eq)]
pub struct TreeRef {
    /// The page of the device at which it begins.
    pub first: u32,
    /// How many rows its list has.
    pub rows: u32,
}

/// How many pages stand before a level, and how many it has.
#[derive(Clone, Copy, Debug, PartialEq, Eq)]
pub struct Level {
    /// Pages of the levels below it.
    pub start: u64,
    /// Its own pages.
    pub size: u64,
}

/// A page of a tree.
#[derive(Clone, Copy, Debug, PartialEq, Eq)]
pub struct Spot {
    /// Its level.
    pub level: u8,
    /// Its place there, counted from 0.
    pub at: u64,
}

impl Shape {
    #[tactic(auto, unfolding(crate::specs::Shape::level_size))]
    fn leaves(self) -> u64
        requires { 1 ≤ self.per_leaf }
        ensures size { result ≡ level_size self 0 }
        ensures some { 1 ≤ result }
        ensures below { result < 2 ^ 32 }
    {
        u64::from(self.rows)
            .div_ceil(u64::from(self.per_leaf))
            .max(1)
    }

    /// Where a level stands.
    pub fn level_at(self, level: u8) -> Level
        requires per_leaf { 1 ≤ self.per_leaf }
        requires per_inner { 2 ≤ self.per_inner }
        ensures start { result.start ≡ level_start self level }
        ensures size { result.size ≡ level_size self level }
        ensures some { 1 ≤ result.size }
        ensures size_below { result.size < 2 ^ 32 }
        ensures start_below { result.start ≤ level * 2 ^ 32 }
    {
        let many = u64::from(self.per_inner);
        let mut at = Level {
            start: 0,
            size: self.leaves(),
        };
        for _i in 0..level {
            at = Level {
                start: at.start + at.size,
                size: at.size.div_ceil(many),
            };
        }
        at
    }

    /// The level of the root.
    pub fn root_level(self) -> u8
        requires per_leaf { 1 ≤ self.per_leaf }
        requires per_inner { 2 ≤ self.per_inner }
        ensures root { IsRoot self result }
        ensures low { result ≤ 33 }
    {
        let many = u64::from(self.per_inner);
        let mut size = self.leaves();
        let mut level = 0;
        while size > 1 {
            size = size.div_ceil(many);
            level += 1;
        }
        level
    }

    /// How many pages there are: one more than stand before the root.
    pub fn pages(self) -> u64
        requires per_leaf { 1 ≤ self.per_leaf }
        requires per_inner { 2 ≤ self.per_inner }
        ensures root { (root : ℕ) × IsRoot self root × (root ≤ 33) × (result ≡ level_start self root + 1) }
        ensures last { (root : ℕ) → IsRoot self root → result ≡ level_start self root + 1 }
        ensures all { (level at : ℕ) → IsPlace self level at → level_start self level + at < result }
    {
        self.level_at(self.root_level()).start + 1
    }

    /// The page that has this number, counted from 0.
    pub fn spot_of(self, n: u32) -> Spot
        requires per_leaf { 1 ≤ self.per_leaf }
        requires per_inner { 2 ≤ self.per_inner }
        requires inside { (root : ℕ) → IsRoot self root → n ≤ level_start self root }
        ensures place { IsPlace self result.level result.at }
        ensures number { level_start self result.level + result.at ≡ n }
        ensures low { result.level ≤ 33 }
    {
        let root = self.root_level();
        let n = u64::from(n);
        for level in 0..root {
            let here = self.level_at(level);
            if n < here.start + here.size {
                return Spot {
                    level,
                    at: n - here.start,
                };
            }
        }
        Spot { level: root, at: 0 }
    }

    /// How many rows stand below each full page of a level, where the level and those below it have more pages than one.
    pub fn span(self, level: u8) -> u64
        requires per_leaf { 1 ≤ self.per_leaf }
        requires per_inner { 2 ≤ self.per_inner }
        requires below_root { (below : ℕ) → below ≤ level → 1 < level_size self below }
        ensures span { result ≡ span self level }
        ensures below { result < 2 ^ 32 }
    {
        let many = u64::from(self.per_inner);
        let mut step = u64::from(self.per_leaf);
        for _i in 0..level {
            step *= many;
        }
        step
    }
}
