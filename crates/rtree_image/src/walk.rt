//! A search for the rows in a rectangle: level by level from the root, with one page in hand.

ghost use Rattle.std.specs.Prelude.{◌≡◌, ◌≢◌, ℕ, suc, [], ◌∷◌, ◌++◌, ◌+◌, ◌*◌, ◌^◌, ◌<◌, ◌≤◌, List, length, map, min, is_ok, OnOk, OnErr, IfOk, MatchResult, AllPairs};
ghost use Rattle.std.specs.List.{flat_map};
ghost use Rattle.dev_model.specs.Lending.{StaysLent};
ghost use Rattle.dev_model.specs.Story.{WhereTold};
ghost use Rattle.dev_model.specs.declared.page_faults.PageFault.TheVariants.{Damaged};
ghost use Rattle.tree_shape.specs.Shape.{level_size, level_start, IsRoot, IsPlace};
ghost use Rattle.dev_model.specs.Asked.{fault_of, GoesBy};
ghost use Rattle.rtree_image.specs.declared.rows.RtRow.{RtRow};
ghost use Rattle.rtree_image.specs.Image.{tree_of, rows_below, IsShown, page_number, AreLent};
ghost use Rattle.rtree_image.specs.Visits.{rows_inside, visited_pages};
ghost use Rattle.rtree_image.specs.Steps.{AscendWithin, AddsWithin, ReadsTree, ReadsLevel, children_met};

use crate::in_page::{Unusable, add_children, add_rows};
use crate::levels::{level_at, root_level};
use crate::rows::RtRow;
use dev_model::{PageFault, Pages};
use geo_base::Rect;
use page_codec::{PAGE_BYTES, RTREE_LEAF, open_page};
use tree_shape::TreeRef;

// Reads the page at a place of a level, and gives its number.
fn read_place<P: Pages>(
    pages: &mut P,
    tree: TreeRef,
    level: u8,
    at: u64,
    buf: &mut [u8; PAGE_BYTES],
) -> Result<u32, dev_model::Failed>
    requires place { IsPlace (tree_of tree.rows) level at }
    requires lent { AreLent (P.lending pages.old).lent tree.first tree.rows }
    ensures stays { StaysLent (P.lending pages.old) (P.lending pages.new) result }
    ensures asked { P.asked pages.old pages.new ((page_number (tree_of tree.rows) tree.first level at, is_ok result) ∷ []) }
    ensures number { IfOk result (λ page. page ≡ page_number (tree_of tree.rows) tree.first level at) }
    ensures bytes { OnOk result (WhereTold (P.lending pages.old).contents (λ contents. buf.new ≡ contents (page_number (tree_of tree.rows) tree.first level at))) }
{
    let here = level_at(tree.rows, level);
    let page = (u64::from(tree.first) + (here.start + at)) as u32;
    pages.read_page(page, buf)?;
    Ok(page)
}

// Reads a page above the leaves, and adds those of its children whose bounds meet the rectangle, by their places.
fn visit<P: Pages>(
    pages: &mut P,
    tree: TreeRef,
    below: u8,
    at: u64,
    rect: &Rect,
    buf: &mut [u8; PAGE_BYTES],
    next: &mut Vec<u64>,
) -> Result<(), PageFault>
    requires level { below < 255 }
    requires place { IsPlace (tree_of tree.rows) (suc below) at }
    requires lent { AreLent (P.lending pages.old).lent tree.first tree.rows }
    ensures reads { ReadsTree rect.now tree.first tree.rows P.lending P.asked pages.old pages.new (fault_of result) (page_number (tree_of tree.rows) tree.first (suc below) at ∷ []) }
    ensures ascends { OnOk result (AddsWithin (at * 340) (min (suc at * 340) (level_size (tree_of tree.rows) below)) next.old.items next.new.items) }
    ensures told { (list : List RtRow) → IsShown (P.lending pages.old).contents tree.first tree.rows list
        → OnOk result (next.new.items ≡ next.old.items ++ children_met (tree_of tree.rows) list rect.now below at) }
{
    let page = read_place::<P>(pages, tree, below + 1, at, buf)?;
    match add_children(buf, tree.rows, below, at, rect, next) {
        Ok(()) => Ok(()),
        Err(Unusable::Damaged) => Err(PageFault::Damaged { page }),
        Err(Unusable::OutOfMemory) => Err(PageFault::OutOfMemory),
    }
}

// Reads a leaf, and adds those of its rows that lie in the rectangle.
fn visit_leaf<P: Pages>(
    pages: &mut P,
    tree: TreeRef,
    at: u64,
    rect: &Rect,
    buf: &mut [u8; PAGE_BYTES],
    out: &mut Vec<RtRow>,
) -> Result<(), PageFault>
    requires place { IsPlace (tree_of tree.rows) 0 at }
    requires lent { AreLent (P.lending pages.old).lent tree.first tree.rows }
    ensures reads { ReadsTree rect.now tree.first tree.rows P.lending P.asked pages.old pages.new (fault_of result) (page_number (tree_of tree.rows) tree.first 0 at ∷ []) }
    ensures keeps { (more : List RtRow) × (out.new.items ≡ out.old.items ++ more) }
    ensures told { (list : List RtRow) → IsShown (P.lending pages.old).contents tree.first tree.rows list
        → OnOk result (out.new.items ≡ out.old.items ++ rows_inside rect.now (rows_below (tree_of tree.rows) list 0 at)) }
{
    let page = read_place::<P>(pages, tree, 0, at, buf)?;
    match open_page(buf, RTREE_LEAF, 0) {
        Ok(count) => match add_rows(buf, count, rect, out) {
            Ok(()) => Ok(()),
            Err(_) => Err(PageFault::OutOfMemory),
        },
        Err(_) => Err(PageFault::Damaged { page }),
    }
}

// Visits pages of a level above the leaves, and finds the places to visit in the level below it.
fn visit_level<P: Pages>(
    pages: &mut P,
    tree: TreeRef,
    below: u8,
    places: &[u64],
    rect: &Rect,
    buf: &mut [u8; PAGE_BYTES],
    next: &mut Vec<u64>,
) -> Result<(), PageFault>
    requires level { below < 255 }
    requires up_to_root { (low : ℕ) → low < suc below → 1 < level_size (tree_of tree.rows) low }
    requires places { AscendWithin 0 (level_size (tree_of tree.rows) (suc below)) places.now }
    requires none { next.old.items ≡ [] }
    requires lent { AreLent (P.lending pages.old).lent tree.first tree.rows }
    ensures reads { ReadsLevel rect.now tree.first tree.rows P.lending P.asked pages.old pages.new (fault_of result) (suc below) places.now }
    ensures ascends { OnOk result (AscendWithin 0 (level_size (tree_of tree.rows) below) next.new.items) }
    ensures told { (list : List RtRow) → IsShown (P.lending pages.old).contents tree.first tree.rows list
        → OnOk result (next.new.items ≡ flat_map (children_met (tree_of tree.rows) list rect.now below) places.now) }
{
    for i in 0..places.len() {
        visit::<P>(pages, tree, below, places[i], rect, buf, next)?;
    }
    Ok(())
}

// Visits leaves, and adds those of their rows that lie in the rectangle.
fn visit_leaves<P: Pages>(
    pages: &mut P,
    tree: TreeRef,
    places: &[u64],
    rect: &Rect,
    buf: &mut [u8; PAGE_BYTES],
    out: &mut Vec<RtRow>,
) -> Result<(), PageFault>
    requires places { AscendWithin 0 (level_size (tree_of tree.rows) 0) places.now }
    requires lent { AreLent (P.lending pages.old).lent tree.first tree.rows }
    ensures reads { ReadsLevel rect.now tree.first tree.rows P.lending P.asked pages.old pages.new (fault_of result) 0 places.now }
    ensures keeps { (more : List RtRow) × (out.new.items ≡ out.old.items ++ more) }
    ensures told { (list : List RtRow) → IsShown (P.lending pages.old).contents tree.first tree.rows list
        → OnOk result (out.new.items ≡ out.old.items ++ flat_map (λ at. rows_inside rect.now (rows_below (tree_of tree.rows) list 0 at)) places.now) }
{
    for i in 0..places.len() {
        visit_leaf::<P>(pages, tree, places[i], rect, buf, out)?;
    }
    Ok(())
}

// Adds the rows in the rectangle, also those found before a refusal.
fn add_found<P: Pages>(
    pages: &mut P,
    tree: TreeRef,
    rect: &Rect,
    out: &mut Vec<RtRow>,
) -> Result<(), PageFault>
    requires { AreLent (P.lending pages.old).lent tree.first tree.rows }
    ensures keeps { (more : List RtRow) × (out.new.items ≡ out.old.items ++ more) }
    ensures found { (list : List RtRow) → IsShown (P.lending pages.old).contents tree.first tree.rows list
        → OnOk result (out.new.items ≡ out.old.items ++ rows_inside rect.now list) }
    ensures reads { (seen : List ℕ) × ReadsTree rect.now tree.first tree.rows P.lending P.asked pages.old pages.new (fault_of result) seen × AllPairs (λ a b. a ≢ b) seen
        × ((list : List RtRow) (root : ℕ) → IsShown (P.lending pages.old).contents tree.first tree.rows list → IsRoot (tree_of tree.rows) root
        → GoesBy result seen (visited_pages (tree_of tree.rows) list rect.now tree.first root)) }
{
    let alloc = *out.allocator();
    let mut buf = [0; PAGE_BYTES];
    let mut level = root_level(tree.rows);
    let mut places = Vec::new(alloc);
    places.push(0)?;
    while level > 0 {
        level -= 1;
        let mut next = Vec::new(alloc);
        visit_level::<P>(
            pages,
            tree,
            level,
            places.as_slice(),
            rect,
            &mut buf,
            &mut next,
        )?;
        places = next;
    }
    visit_leaves::<P>(pages, tree, places.as_slice(), rect, &mut buf, out)
}

/// Appends the rows of a tree that lie in the rectangle, edges included, in the order of its list.
///
/// `Failed` where a page is not given, `Damaged` where the page that was read last is none for its place, and
/// `OutOfMemory` where there is no memory for what was found. After each of them `out` is as before. Each page is asked for
/// once at most, level by level from the root, in each level by its number: the root, and each page below it whose bounds the
/// rectangle meets.
///
/// Where the answer is `Ok`, all that was used was tested, whatever the bytes are: each page that was asked for has a header of
/// its kind and level; above the leaves it has a row at least, and no more than pages are left in the level below; and each of
/// its rows whose bounds meet the rectangle leads to the child of its place. The other rows' children are not looked at.
pub fn search<P: Pages>(
    pages: &mut P,
    tree: TreeRef,
    rect: &Rect,
    out: &mut Vec<RtRow>,
) -> Result<(), PageFault>
    requires { AreLent (P.lending pages.old).lent tree.first tree.rows }
    ensures put_back { OnErr result (out.new.items ≡ out.old.items) }
    ensures appends { (more : List RtRow) × (out.new.items ≡ out.old.items ++ more) }
    ensures found { (list : List RtRow) → IsShown (P.lending pages.old).contents tree.first tree.rows list
        → MatchResult result (λ _. out.new.items ≡ out.old.items ++ rows_inside rect.now list) (λ fault. (page : ℕ) → fault ≢ Damaged page) }
    ensures reads { (seen : List ℕ) × ReadsTree rect.now tree.first tree.rows P.lending P.asked pages.old pages.new (fault_of result) seen × AllPairs (λ a b. a ≢ b) seen
        × ((list : List RtRow) (root : ℕ) → IsShown (P.lending pages.old).contents tree.first tree.rows list → IsRoot (tree_of tree.rows) root
        → GoesBy result seen (visited_pages (tree_of tree.rows) list rect.now tree.first root)) }
{
    let kept = out.len();
    match add_found::<P>(pages, tree, rect, out) {
        Ok(()) => Ok(()),
        Err(fault) => {
            out.truncate(kept);
            Err(fault)
        }
    }
}
