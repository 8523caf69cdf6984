// A slot as a value.

/// What a slot says of a component.
#[derive(Clone, Copy, Debug, PartialEq, Eq)]
pub struct Slot {
    /// The number of its index: 0 is the primary, 1 to 5 are the R-tree, dhb, dhvb, shb and the spatial inverted file.
    pub index: u8,
    /// The first page of its extent.
    pub first: u32,
    /// The pages of its extent.
    pub pages: u32,
    /// The number of the first write that it has.
    pub first_lsn: u64,
    /// The number of the last one.
    pub last_lsn: u64,
    /// Rows of the main part, which begins at the extent's first page.
    pub main_rows: u32,
    /// Rows of the second part, 0 where the index has none.
    pub second_rows: u32,
    /// Where in the extent the second part begins, in pages; 0 where the index has none.
    pub second_at: u32,
    /// Where in the extent the filter begins, in pages; 0 where there is none.
    pub filter_at: u32,
    /// Bits of the filter, 0 where there is none.
    pub filter_bits: u32,
    /// For the primary the rows of the table after the last write, for every other index 0.
    pub table_rows: u64,
}
