// Rows of the primary, and what readers find in a tree of them.
ghost use Rattle.std.specs.Prelude.{◌≡◌, ◌≤◌, ◌^◌, vec_len, IfOk};

use crate::mem_pages::MemPages;
use btree_image::{find, scan};
use dev_model::PageFault;
use geo_base::{Note, Point};
use primary_ix::PrimRow;
use std::alloc::{AllocError, Global};
use tree_shape::TreeRef;

/// A point and a note of one byte.
pub fn matter(x: u16) -> Option<(Point, Note)> {
    match Note::new(b"a") {
        Ok(note) => Some((Point { x, y: 7 }, note)),
        Err(_) => None,
    }
}

/// The row of a key at this x.
pub fn row(key: u64, x: u16) -> PrimRow {
    PrimRow {
        key,
        matter: matter(x),
    }
}

/// The rows of the keys 1, 4, 7 and so on.
pub fn numbered(alloc: Global, rows: u32) -> Result<Vec<PrimRow>, AllocError>
    ensures { IfOk result (λ list. vec_len list ≡ rows) }
{
    let mut list = Vec::new(alloc);
    for i in 0..rows {
        let key = u64::from(i) * 3 + 1;
        let matter = matter(5);
        list.push(PrimRow { key, matter })?;
    }
    Ok(list)
}

/// The key of the row that a tree has for a key.
pub fn look(pages: &mut MemPages, tree: TreeRef, key: u64) -> Result<Option<u64>, PageFault>
    requires { tree.first ≤ 2 ^ 31 }
{
    match find::<PrimRow, MemPages>(pages, tree, &key) {
        Ok(Some(row)) => Ok(Some(row.key)),
        Ok(None) => Ok(None),
        Err(fault) => Err(fault),
    }
}

/// Adds the rows of a tree whose keys lie in the ranges.
pub fn scanned(
    pages: &mut MemPages,
    tree: TreeRef,
    ranges: &[(u64, u64)],
    out: &mut Vec<PrimRow>,
) -> Result<(), PageFault>
    requires { tree.first ≤ 2 ^ 31 }
{
    scan::<PrimRow, MemPages>(pages, tree, ranges, out)
}
