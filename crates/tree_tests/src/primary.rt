//! Two components against plain tables of their keys.

ghost use Rattle.std.specs.Prelude.{◌≡◌, ◌<◌, ◌≤◌, ◌^◌, length, IfOk};
ghost use Rattle.tree_tests.specs.declared.primary.TheConstants.{COMPONENTS};

use crate::mem_pages::MemPages;
use crate::primary_rows::{matter, row};
use btree_image::TreeRow;
use dev_model::PageFault;
use mem_comp::{MemComp, MemView};
use page_codec::PAGE_BYTES;
use primary_ix::{PrimComp, PrimRow, PrimView, image_page, living_rows, lookup, lookup_disk, need};
use std::alloc::{AllocError, Global};
use std::test::Fail;
use tree_shape::TreeRef;

// Fifty-three keys, all at one coordinate but for one that is deleted.
fn list_of_keys(alloc: Global, step: u64, x: u16, deleted: u64) -> Result<Vec<PrimRow>, AllocError>
    requires { step ≤ 2 }
    ensures { IfOk result (λ list. length list.items ≡ 53) }
{
    let mut list = Vec::new(alloc);
    for i in 0..53 {
        let key = i * step;
        let matter = if key == deleted { None } else { matter(x) };
        list.push(PrimRow { key, matter })?;
    }
    Ok(list)
}

fn add_image(pages: &mut Vec<[u8; PAGE_BYTES]>, list: &[PrimRow]) -> Result<(), AllocError>
    requires { length list.now < 2 ^ 32 }
{
    for n in 0..need(list.len() as u32) {
        let mut page = [9; PAGE_BYTES];
        image_page(list, n, &mut page);
        pages.push(page)?;
    }
    Ok(())
}

// The pages of two components: leaves 0 and 1 and the root 2 of the newer one, and then those of the older one. The newer
// one has the even keys up to 104, all at 1 but for 10, which is deleted; the older one the keys up to 52, all at 2.
fn images(alloc: Global, refused: u32) -> Result<MemPages, AllocError> {
    let mut pages = Vec::new(alloc);
    add_image(&mut pages, &list_of_keys(alloc, 2, 1, 10)?)?;
    add_image(&mut pages, &list_of_keys(alloc, 1, 2, u64::MAX)?)?;
    let mut pages = MemPages::new(pages);
    pages.refused = refused;
    Ok(pages)
}

const COMPONENTS: [PrimComp; 2] = [
    PrimComp {
        tree: TreeRef { first: 0, rows: 53 },
    },
    PrimComp {
        tree: TreeRef { first: 3, rows: 53 },
    },
];

// The key and the coordinate of a row.
fn shown(found: Option<PrimRow>) -> Option<(u64, Option<u16>)> {
    match found {
        Some(row) => match row.matter {
            Some((point, _)) => Some((row.key, Some(point.x))),
            None => Some((row.key, None)),
        },
        None => None,
    }
}

fn look(pages: &mut MemPages, key: u64) -> Result<Option<(u64, Option<u16>)>, PageFault> {
    match lookup_disk(pages, &COMPONENTS, key) {
        Ok(found) => Ok(shown(found)),
        Err(fault) => Err(fault),
    }
}

#[test]
fn the_newest_component_that_has_a_key_answers(rt: HostRuntime) -> Result<(), Fail> {
    // A key, its row, the pages that are asked for, and how many they are.
    let table = [
        (0, Some((0, Some(1))), [2, 0, 0, 0, 0], 2),
        (10, Some((10, None)), [2, 0, 0, 0, 0], 2),
        (11, Some((11, Some(2))), [2, 0, 5, 3, 0], 4),
        (51, Some((51, Some(2))), [2, 0, 5, 3, 0], 4),
        (52, Some((52, Some(1))), [2, 0, 0, 0, 0], 2),
        (53, None, [2, 0, 5, 4, 0], 4),
        (103, None, [2, 0, 5, 4, 0], 4),
        (104, Some((104, Some(1))), [2, 1, 0, 0, 0], 2),
        (105, None, [2, 1, 5, 4, 0], 4),
    ];
    for (key, want, asked, count) in table {
        let mut pages = images(rt.alloc(), 9)?;
        assert_eq!(rt; look(&mut pages, key), Ok(want), "key {key}");
        assert_eq!(rt; pages.asked, asked, "key {key}");
        assert_eq!(rt; pages.count, count, "key {key}");
    }
    Ok(())
}

#[test]
fn a_page_that_is_not_given_ends_a_lookup(rt: HostRuntime) -> Result<(), Fail> {
    // A page that is not given, the answer for key 11, and how many pages were asked for.
    let table = [
        (2, Err(PageFault::Failed), 1),
        (0, Err(PageFault::Failed), 2),
        (5, Err(PageFault::Failed), 3),
        (3, Err(PageFault::Failed), 4),
        (1, Ok(Some((11, Some(2)))), 4),
        (4, Ok(Some((11, Some(2)))), 4),
    ];
    for (refused, want, count) in table {
        let mut pages = images(rt.alloc(), refused)?;
        assert_eq!(rt; look(&mut pages, 11), want, "page {refused}");
        assert_eq!(rt; pages.count, count, "page {refused}");
    }
    Ok(())
}

#[test]
fn an_image_takes_these_pages(rt: HostRuntime) -> Result<(), Fail> {
    let table = [(0, 1), (1, 1), (52, 1), (53, 3), (17680, 341), (17681, 344)];
    for (rows, pages) in table {
        assert_eq!(rt; need(rows), pages, "{rows} rows");
    }
    Ok(())
}

#[test]
fn bytes_are_a_row_by_their_anti_byte_and_note(rt: HostRuntime) -> Result<(), Fail> {
    // A byte of a row and its new value, and what is read.
    let table = [
        (7, 9, Some((9, Some(3)))),
        (8, 1, Some((5, None))),
        (8, 2, None),
        (9, 0, Some((5, Some(3)))),
        (9, 2, None),
        (9, 65, None),
        (9, 255, None),
        (11, 4, Some((5, Some(4)))),
        (14, 33, Some((5, Some(3)))),
        (14, 45, None),
        (14, 32, None),
        (14, 127, None),
        (15, 1, Some((5, Some(3)))),
    ];
    for (at, byte, want) in table {
        let mut bytes = [0; 78];
        row(5, 3).write(&mut bytes);
        if at < 78 {
            bytes[at] = byte;
        }
        assert_eq!(rt; shown(PrimRow::read(&bytes)), want, "byte {at} is {byte}");
    }
    Ok(())
}

// A list in memory with two rows.
fn list_of(alloc: Global, first: PrimRow, second: PrimRow) -> Result<MemView<PrimRow>, AllocError> {
    let mut list = MemComp::new(alloc);
    list.reserve(2)?;
    list.add(first);
    list.add(second);
    list.share()
}

// In the active list 1 is deleted and 200 is new; in the frozen one 1 is at 8, and 3 is deleted.
fn view(alloc: Global) -> Result<PrimView, AllocError>
    ensures { IfOk result (λ view. view.comps.items ≡ COMPONENTS) }
{
    let deleted = PrimRow {
        key: 1,
        matter: None,
    };
    let frozen = PrimRow {
        key: 3,
        matter: None,
    };
    Ok(PrimView {
        comps: Vec::from_slice(alloc, &COMPONENTS)?,
        frozen: Some(list_of(alloc, row(1, 8), frozen)?),
        active: list_of(alloc, deleted, row(200, 9))?,
    })
}

// The coordinate of a record in the view.
fn look_in_view(
    alloc: Global,
    pages: &mut MemPages,
    key: u64,
) -> Result<Result<Option<u16>, PageFault>, AllocError> {
    let view = view(alloc)?;
    Ok(match lookup(pages, &view, key) {
        Ok(Some(row)) => Ok(Some(row.point.x)),
        Ok(None) => Ok(None),
        Err(fault) => Err(fault),
    })
}

#[test]
fn the_newest_list_of_a_view_answers(rt: HostRuntime) -> Result<(), Fail> {
    // A key, the coordinate of its record, and how many pages are asked for.
    let table = [
        (1, None, 0),
        (3, None, 0),
        (200, Some(9), 0),
        (4, Some(1), 2),
        (10, None, 2),
        (11, Some(2), 4),
        (53, None, 4),
    ];
    for (key, want, count) in table {
        let mut pages = images(rt.alloc(), 9)?;
        assert_eq!(rt;
            look_in_view(rt.alloc(), &mut pages, key)?,
            Ok(want),
            "key {key}"
        );
        assert_eq!(rt; pages.count, count, "key {key}");
    }
    Ok(())
}

// How many rows live in the view, and the sum of their keys.
fn rows_of_view(
    alloc: Global,
    pages: &mut MemPages,
) -> Result<Result<(usize, u64), PageFault>, AllocError> {
    let view = view(alloc)?;
    Ok(
        match living_rows(alloc, pages, &view.active, &view.frozen, &view.comps) {
            Ok(rows) => Ok((rows.len(), key_sum(&rows))),
            Err(fault) => Err(fault),
        },
    )
}

fn key_sum(rows: &[PrimRow]) -> u64 {
    let mut sum: u64 = 0;
    for row in rows {
        sum = sum.wrapping_add(row.key);
    }
    sum
}

#[test]
fn all_rows_that_live_are_found(rt: HostRuntime) -> Result<(), Fail> {
    // A page that is not given, the rows or the fault, and how many pages were asked for.
    let table = [
        (9, Ok((77, 3618)), 6),
        (2, Err(PageFault::Failed), 1),
        (0, Err(PageFault::Failed), 2),
        (1, Err(PageFault::Failed), 3),
        (5, Err(PageFault::Failed), 4),
        (3, Err(PageFault::Failed), 5),
        (4, Err(PageFault::Failed), 6),
    ];
    for (refused, want, count) in table {
        let mut pages = images(rt.alloc(), refused)?;
        assert_eq!(rt;
            rows_of_view(rt.alloc(), &mut pages)?,
            want,
            "page {refused}"
        );
        assert_eq!(rt; pages.count, count, "page {refused}");
    }
    Ok(())
}
