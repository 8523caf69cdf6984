//! Trees of rows against a plain model, which lists the rows and the pages of each descent.

ghost use Rattle.std.specs.Prelude.{◌≡◌, ◌<◌, ◌^◌, length};

use crate::mem_pages::MemPages;
use crate::primary_rows::{look, matter, numbered, scanned};
use btree_image::{load_page, pages_for};
use dev_model::PageFault;
use page_codec::PAGE_BYTES;
use primary_ix::PrimRow;
use std::alloc::{AllocError, Global};
use std::test::Fail;
use tree_shape::TreeRef;

/// The image of a list.
fn image(alloc: Global, list: &[PrimRow]) -> Result<MemPages, AllocError>
    requires { length list.now < 2 ^ 32 }
{
    let mut pages = Vec::new(alloc);
    for n in 0..pages_for::<PrimRow>(list.len() as u32) {
        let mut page = [9; PAGE_BYTES];
        load_page(list, n, &mut page);
        pages.push(page)?;
    }
    Ok(MemPages::new(pages))
}

/// The tree of such an image.
fn tree(rows: u32) -> TreeRef
    ensures { result ≡ record { first = 0; rows = rows } }
{
    TreeRef { first: 0, rows }
}

#[test]
fn rows_are_found_on_the_way_of_the_model(rt: HostRuntime) -> Result<(), Fail> {
    // Rows, pages, a key, whether it is there, the pages of its descent, and how many they are.
    let table = [
        (0, 1, 0, false, [0, 0, 0], 1),
        (1, 1, 0, false, [0, 0, 0], 1),
        (1, 1, 1, true, [0, 0, 0], 1),
        (1, 1, 2, false, [0, 0, 0], 1),
        (52, 1, 0, false, [0, 0, 0], 1),
        (52, 1, 1, true, [0, 0, 0], 1),
        (52, 1, 154, true, [0, 0, 0], 1),
        (52, 1, 157, false, [0, 0, 0], 1),
        (53, 3, 0, false, [2, 0, 0], 2),
        (53, 3, 1, true, [2, 0, 0], 2),
        (53, 3, 157, true, [2, 1, 0], 2),
        (53, 3, 166, false, [2, 1, 0], 2),
        (17680, 341, 2, false, [340, 0, 0], 2),
        (17680, 341, 30000, false, [340, 192, 0], 2),
        (17680, 341, 53038, true, [340, 339, 0], 2),
        (17681, 344, 0, false, [343, 341, 0], 3),
        (17681, 344, 157, true, [343, 341, 1], 3),
        (17681, 344, 53041, true, [343, 342, 340], 3),
        (17681, 344, 53050, false, [343, 342, 340], 3),
        (20000, 388, 30000, false, [387, 385, 192], 3),
        (20000, 388, 59998, true, [387, 386, 384], 3),
        (20000, 388, 60007, false, [387, 386, 384], 3),
    ];
    for (rows, count, key, there, way, steps) in table {
        let list = numbered(rt.alloc(), rows)?;
        let mut pages = image(rt.alloc(), &list)?;
        let [a, b, c] = way;
        let found = if there { Some(key) } else { None };
        assert_eq!(rt; pages.pages.len(), count, "{rows} rows");
        assert_eq!(rt;
            look(&mut pages, tree(rows), key),
            Ok(found),
            "{key} of {rows} rows"
        );
        assert_eq!(rt; pages.asked, [a, b, c, 0, 0], "{key} of {rows} rows");
        assert_eq!(rt; pages.count, steps, "{key} of {rows} rows");
    }
    Ok(())
}

#[test]
fn a_reader_tests_the_header_and_what_it_uses(rt: HostRuntime) -> Result<(), Fail> {
    // Of 53 rows: a page, a byte of it and its new value, a key, and the answer.
    let table = [
        (2, 0, 1, 1, Err(PageFault::Damaged { page: 2 })),
        (2, 1, 0, 1, Err(PageFault::Damaged { page: 2 })),
        (2, 3, 0, 1, Err(PageFault::Damaged { page: 2 })),
        (2, 4, 1, 1, Err(PageFault::Damaged { page: 2 })),
        (2, 19, 2, 1, Err(PageFault::Damaged { page: 2 })),
        (2, 19, 2, 157, Ok(Some(157))),
        (2, 31, 2, 157, Err(PageFault::Damaged { page: 2 })),
        (2, 31, 2, 1, Ok(Some(1))),
        (0, 0, 2, 1, Err(PageFault::Damaged { page: 0 })),
        (0, 3, 53, 1, Err(PageFault::Damaged { page: 0 })),
        (0, 16, 2, 1, Err(PageFault::Damaged { page: 0 })),
        (0, 16, 2, 4, Ok(Some(4))),
        (0, 4095, 9, 1, Ok(Some(1))),
        (1, 3, 0, 157, Ok(None)),
        (1, 7, 1, 157, Err(PageFault::Damaged { page: 1 })),
    ];
    let list = numbered(rt.alloc(), 53)?;
    for (page, at, byte, key, want) in table {
        let mut pages = image(rt.alloc(), &list)?;
        pages.spoil(page, at, byte);
        assert_eq!(rt;
            look(&mut pages, tree(53), key),
            want,
            "byte {at} of page {page} is {byte}"
        );
    }
    Ok(())
}

#[test]
fn a_page_that_is_not_given_ends_a_descent(rt: HostRuntime) -> Result<(), Fail> {
    let list = numbered(rt.alloc(), 53)?;
    let table = [
        (2, 157, Err(PageFault::Failed), [2, 0, 0, 0, 0], 1),
        (1, 157, Err(PageFault::Failed), [2, 1, 0, 0, 0], 2),
        (0, 157, Ok(Some(157)), [2, 1, 0, 0, 0], 2),
    ];
    for (refused, key, want, asked, count) in table {
        let mut pages = image(rt.alloc(), &list)?;
        pages.refused = refused;
        assert_eq!(rt; look(&mut pages, tree(53), key), want, "page {refused}");
        assert_eq!(rt; pages.asked, asked, "page {refused}");
        assert_eq!(rt; pages.count, count, "page {refused}");
    }
    Ok(())
}

// The first of three ranges.
fn first(
    alloc: Global,
    ranges: &[(u64, u64); 3],
    many: usize,
) -> Result<Vec<(u64, u64)>, AllocError> {
    let mut wanted = Vec::new(alloc);
    wanted.extend_from_slice(ranges)?;
    wanted.truncate(many);
    Ok(wanted)
}

fn is_inside(ranges: &[(u64, u64)], key: u64) -> bool {
    for range in ranges {
        if range.0 <= key && key <= range.1 {
            return true;
        }
    }
    false
}

// The keys of a list that lie in a range, behind one that stood there.
fn plain(alloc: Global, list: &[PrimRow], ranges: &[(u64, u64)]) -> Result<Vec<u64>, AllocError> {
    let mut inside = vec![in alloc; 7]?;
    for row in list {
        if is_inside(ranges, row.key) {
            inside.push(row.key)?;
        }
    }
    Ok(inside)
}

fn keys_of(alloc: Global, list: &[PrimRow]) -> Result<Vec<u64>, AllocError> {
    let mut keys = Vec::new(alloc);
    for row in list {
        keys.push(row.key)?;
    }
    Ok(keys)
}

// A list with the row of key 7.
fn begun(alloc: Global) -> Result<Vec<PrimRow>, AllocError> {
    let matter = matter(5);
    let mut list = Vec::new(alloc);
    list.push(PrimRow { key: 7, matter })?;
    Ok(list)
}

fn first_four(pages: &MemPages) -> [u32; 4] {
    let [a, b, c, d, _] = pages.asked;
    [a, b, c, d]
}

#[test]
fn a_scan_gives_the_rows_and_asks_for_the_pages_of_the_model(rt: HostRuntime) -> Result<(), Fail> {
    // Rows, ranges, how many of them are asked for, how many rows lie in them, the first pages that are asked for, and how
    // many they are.
    let table = [
        (0, [(0, 0), (0, 0), (0, 0)], 0, 0, [0, 0, 0, 0], 1),
        (0, [(0, u64::MAX), (0, 0), (0, 0)], 1, 0, [0, 0, 0, 0], 1),
        (1, [(0, 0), (0, 0), (0, 0)], 0, 0, [0, 0, 0, 0], 1),
        (1, [(0, 0), (0, 0), (0, 0)], 1, 0, [0, 0, 0, 0], 1),
        (1, [(1, 1), (0, 0), (0, 0)], 1, 1, [0, 0, 0, 0], 1),
        (1, [(2, 9), (0, 0), (0, 0)], 1, 0, [0, 0, 0, 0], 1),
        (52, [(0, u64::MAX), (0, 0), (0, 0)], 1, 52, [0, 0, 0, 0], 1),
        (52, [(154, 154), (0, 0), (0, 0)], 1, 1, [0, 0, 0, 0], 1),
        (52, [(155, u64::MAX), (0, 0), (0, 0)], 1, 0, [0, 0, 0, 0], 1),
        (52, [(4, 7), (8, 9), (10, 10)], 3, 3, [0, 0, 0, 0], 1),
        (53, [(0, 0), (0, 0), (0, 0)], 0, 0, [2, 0, 0, 0], 1),
        (53, [(0, 0), (0, 0), (0, 0)], 1, 0, [2, 0, 0, 0], 1),
        (53, [(0, u64::MAX), (0, 0), (0, 0)], 1, 53, [2, 0, 1, 0], 3),
        (53, [(154, 154), (0, 0), (0, 0)], 1, 1, [2, 0, 0, 0], 2),
        (53, [(155, 156), (0, 0), (0, 0)], 1, 0, [2, 0, 0, 0], 2),
        (53, [(157, 157), (0, 0), (0, 0)], 1, 1, [2, 1, 0, 0], 2),
        (53, [(154, 157), (0, 0), (0, 0)], 1, 2, [2, 0, 1, 0], 3),
        (
            53,
            [(0, 1), (153, 155), (158, u64::MAX)],
            3,
            2,
            [2, 0, 1, 0],
            3,
        ),
        (53, [(158, u64::MAX), (0, 0), (0, 0)], 1, 0, [2, 1, 0, 0], 2),
        (105, [(0, 0), (160, 160), (400, 500)], 3, 1, [3, 1, 2, 0], 3),
        (105, [(1, 1), (313, 313), (0, 0)], 2, 2, [3, 0, 2, 0], 3),
        (105, [(2, 3), (155, 156), (0, 0)], 2, 0, [3, 0, 0, 0], 2),
        (17681, [(0, 0), (0, 0), (0, 0)], 0, 0, [343, 0, 0, 0], 1),
        (17681, [(0, 0), (0, 0), (0, 0)], 1, 0, [343, 0, 0, 0], 1),
        (
            17681,
            [(53041, 53041), (0, 0), (0, 0)],
            1,
            1,
            [343, 342, 340, 0],
            3,
        ),
        (
            17681,
            [(0, u64::MAX), (0, 0), (0, 0)],
            1,
            17681,
            [343, 341, 342, 0],
            344,
        ),
        (
            17681,
            [(53038, 53041), (0, 0), (0, 0)],
            1,
            2,
            [343, 341, 342, 339],
            5,
        ),
        (
            17681,
            [(1, 1), (30000, 30400), (53050, u64::MAX)],
            3,
            135,
            [343, 341, 342, 0],
            8,
        ),
        (
            17681,
            [(53035, 53036), (53039, 53040), (0, 0)],
            2,
            1,
            [343, 341, 339, 0],
            3,
        ),
    ];
    for (rows, ranges, many, count, asked, pages_asked) in table {
        let list = numbered(rt.alloc(), rows)?;
        let mut pages = image(rt.alloc(), &list)?;
        let ranges = first(rt.alloc(), &ranges, many)?;
        let mut out = begun(rt.alloc())?;
        assert_eq!(rt;
            scanned(&mut pages, tree(rows), &ranges, &mut out),
            Ok(()),
            "{rows} rows"
        );
        assert_eq!(rt; out.len().saturating_sub(1), count, "{rows} rows");
        assert_eq!(rt;
            keys_of(rt.alloc(), &out)?,
            plain(rt.alloc(), &list, &ranges)?,
            "{rows} rows"
        );
        assert_eq!(rt; first_four(&pages), asked, "{rows} rows");
        assert_eq!(rt; pages.count, pages_asked, "{rows} rows");
    }
    Ok(())
}

#[test]
fn a_scan_that_is_refused_leaves_the_list(rt: HostRuntime) -> Result<(), Fail> {
    // Of 105 rows: a page that is not given, or else a page, a byte of it and its new value; the answer, and how many pages
    // were asked for.
    let table = [
        (3, 0, 0, 1, Err(PageFault::Failed), 1),
        (0, 0, 0, 1, Err(PageFault::Failed), 2),
        (1, 0, 0, 1, Err(PageFault::Failed), 3),
        (2, 0, 0, 1, Err(PageFault::Failed), 4),
        (9, 3, 0, 1, Err(PageFault::Damaged { page: 3 }), 1),
        (9, 3, 1, 0, Err(PageFault::Damaged { page: 3 }), 1),
        (9, 3, 3, 0, Err(PageFault::Damaged { page: 3 }), 1),
        (9, 3, 4, 1, Err(PageFault::Damaged { page: 3 }), 1),
        (9, 0, 0, 2, Err(PageFault::Damaged { page: 0 }), 2),
        (9, 0, 16, 2, Err(PageFault::Damaged { page: 0 }), 2),
        (9, 1, 16, 2, Err(PageFault::Damaged { page: 1 }), 3),
        (9, 2, 16, 2, Err(PageFault::Damaged { page: 2 }), 4),
        (9, 2, 4095, 1, Ok(()), 4),
    ];
    let list = numbered(rt.alloc(), 105)?;
    for (refused, page, at, byte, want, count) in table {
        let mut pages = image(rt.alloc(), &list)?;
        if refused == 9 {
            pages.spoil(page, at, byte);
        } else {
            pages.refused = refused;
        }
        let mut out = begun(rt.alloc())?;
        let answer = scanned(&mut pages, tree(105), &[(0, u64::MAX)], &mut out);
        assert_eq!(rt; answer, want, "page {refused}, byte {at} of page {page}");
        assert_eq!(rt;
            pages.count,
            count,
            "page {refused}, byte {at} of page {page}"
        );
        assert_eq!(rt;
            out.len(),
            if answer == Ok(()) { 106 } else { 1 },
            "page {refused}"
        );
    }
    Ok(())
}
