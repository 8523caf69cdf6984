//! R-trees against a plain model, whose counts and pages are worked out by bench/trees/points.py.

ghost use Rattle.std.specs.Prelude.{◌≡◌, ◌<◌, ◌^◌, ℕ, length, IfOk};

use crate::mem_pages::MemPages;
use dev_model::PageFault;
use geo_base::{Point, Rect};
use page_codec::PAGE_BYTES;
use rtree_image::{RtRow, load_page, pages_for, search};
use std::alloc::{AllocError, Global};
use std::test::Fail;
use tree_shape::TreeRef;

// Rows in columns of 100, each column with heights in a scattered order.
fn columns(alloc: Global, count: u32) -> Result<Vec<RtRow>, AllocError>
    ensures { IfOk result (λ list. length list.items ≡ count) }
{
    let mut list = Vec::new(alloc);
    for i in 0..count {
        let key = u64::from(i);
        list.push(RtRow {
            point: Point {
                x: (key / 100 % 65536) as u16,
                y: (key * 7 % 1000) as u16,
            },
            key,
        })?;
    }
    Ok(list)
}

// The image of a list.
fn image(alloc: Global, list: &[RtRow]) -> Result<MemPages, AllocError>
    requires { length list.now < 2 ^ 32 }
{
    let mut pages = Vec::new(alloc);
    for n in 0..pages_for(list.len() as u32) {
        let mut page = [9; PAGE_BYTES];
        load_page(list, n, &mut page);
        pages.push(page)?;
    }
    Ok(MemPages::new(pages))
}

// The rows inside by a look at each row.
fn looked_through(
    alloc: Global,
    list: &[RtRow],
    corners: (u16, u16, u16, u16),
) -> Result<Vec<RtRow>, AllocError> {
    let (x1, y1, x2, y2) = corners;
    let mut found = Vec::new(alloc);
    for row in list {
        if x1 <= row.point.x && row.point.x <= x2 && y1 <= row.point.y && row.point.y <= y2 {
            found.push(*row)?;
        }
    }
    Ok(found)
}

fn look(
    pages: &mut MemPages,
    rows: u32,
    rect: &Rect,
    out: &mut Vec<RtRow>,
) -> Result<(), PageFault> {
    search::<MemPages>(pages, TreeRef { first: 0, rows }, rect, out)
}

#[test]
fn rows_are_found_on_the_pages_of_the_model(rt: HostRuntime) -> Result<(), Fail> {
    // Rows, pages, a rectangle, how many rows lie in it, the pages of the search, and how many they are.
    let table = [
        (0, 1, (0, 0, 65535, 65535), 0, [0, 0, 0, 0, 0], 1),
        (1, 1, (0, 0, 65535, 65535), 1, [0, 0, 0, 0, 0], 1),
        (1, 1, (0, 0, 0, 0), 1, [0, 0, 0, 0, 0], 1),
        (1, 1, (1, 0, 9, 9), 0, [0, 0, 0, 0, 0], 1),
        (340, 1, (0, 0, 65535, 65535), 340, [0, 0, 0, 0, 0], 1),
        (340, 1, (3, 373, 3, 373), 1, [0, 0, 0, 0, 0], 1),
        (340, 1, (4, 0, 9, 999), 0, [0, 0, 0, 0, 0], 1),
        (341, 3, (0, 0, 65535, 65535), 341, [2, 0, 1, 0, 0], 3),
        (341, 3, (3, 380, 3, 380), 1, [2, 0, 1, 0, 0], 3),
        (341, 3, (0, 0, 2, 999), 300, [2, 0, 0, 0, 0], 2),
        (341, 3, (3, 381, 3, 999), 0, [2, 0, 0, 0, 0], 2),
        (341, 3, (3, 0, 3, 379), 40, [2, 0, 0, 0, 0], 2),
        (341, 3, (4, 380, 9, 380), 0, [2, 0, 0, 0, 0], 1),
        (115601, 344, (0, 0, 0, 0), 1, [343, 341, 0, 0, 0], 3),
        (
            115601,
            344,
            (1156, 200, 1156, 200),
            1,
            [343, 342, 340, 0, 0],
            3,
        ),
        (
            115601,
            344,
            (1155, 0, 1156, 999),
            101,
            [343, 341, 342, 339, 340],
            5,
        ),
        (115601, 344, (1156, 0, 1156, 199), 0, [343, 0, 0, 0, 0], 1),
        (115601, 344, (7, 100, 9, 200), 28, [343, 341, 2, 0, 0], 3),
        (115601, 344, (2000, 0, 3000, 999), 0, [343, 0, 0, 0, 0], 1),
    ];
    for (rows, count, corners, found, way, steps) in table {
        let (x1, y1, x2, y2) = corners;
        let list = columns(rt.alloc(), rows)?;
        let mut pages = image(rt.alloc(), &list)?;
        let rect = Rect::new(x1, y1, x2, y2).expect(&rt, "a rectangle");
        let mut out = Vec::new(rt.alloc());
        let want = looked_through(rt.alloc(), &list, corners)?;
        assert_eq!(rt; pages.pages.len(), count, "{rows} rows");
        assert_eq!(rt;
            look(&mut pages, rows, &rect, &mut out),
            Ok(()),
            "{rows} rows from {x1} {y1}"
        );
        assert_eq!(rt; out.len(), found, "{rows} rows from {x1} {y1}");
        assert_eq!(rt;
            out.as_slice(),
            want.as_slice(),
            "{rows} rows from {x1} {y1}"
        );
        assert_eq!(rt; pages.asked, way, "{rows} rows from {x1} {y1}");
        assert_eq!(rt; pages.count, steps, "{rows} rows from {x1} {y1}");
    }
    Ok(())
}

#[test]
fn a_search_tests_the_header_and_what_it_uses(rt: HostRuntime) -> Result<(), Fail> {
    // Of 341 rows: a page, a byte of it and its new value, the greatest x of the rectangle, the answer, and how many rows
    // are in the list then, of which one was there before.
    let table = [
        (2, 0, 3, 9, Err(PageFault::Damaged { page: 2 }), 1),
        (2, 1, 0, 9, Err(PageFault::Damaged { page: 2 }), 1),
        (2, 3, 0, 9, Err(PageFault::Damaged { page: 2 }), 1),
        (2, 3, 3, 9, Err(PageFault::Damaged { page: 2 }), 1),
        (2, 4, 1, 9, Err(PageFault::Damaged { page: 2 }), 1),
        (2, 9, 200, 2, Ok(()), 1),
        (2, 19, 1, 9, Err(PageFault::Damaged { page: 2 }), 1),
        (2, 31, 0, 9, Err(PageFault::Damaged { page: 2 }), 1),
        (2, 31, 0, 2, Ok(()), 301),
        (0, 0, 4, 9, Err(PageFault::Damaged { page: 0 }), 1),
        (1, 7, 1, 9, Err(PageFault::Damaged { page: 1 }), 1),
        (1, 7, 1, 2, Ok(()), 301),
        (1, 4095, 7, 9, Ok(()), 342),
    ];
    let list = columns(rt.alloc(), 341)?;
    for (page, at, byte, x2, want, rows) in table {
        let mut pages = image(rt.alloc(), &list)?;
        pages.spoil(page, at, byte);
        let rect = Rect::new(0, 0, x2, 999).expect(&rt, "a rectangle");
        let mut out = columns(rt.alloc(), 1)?;
        assert_eq!(rt;
            look(&mut pages, 341, &rect, &mut out),
            want,
            "byte {at} of page {page} is {byte}"
        );
        assert_eq!(rt; out.len(), rows, "byte {at} of page {page} is {byte}");
    }
    Ok(())
}

#[test]
fn a_page_that_is_not_given_ends_a_search(rt: HostRuntime) -> Result<(), Fail> {
    let list = columns(rt.alloc(), 341)?;
    let table = [
        (2, Err(PageFault::Failed), [2, 0, 0, 0, 0], 1, 1),
        (0, Err(PageFault::Failed), [2, 0, 0, 0, 0], 2, 1),
        (1, Err(PageFault::Failed), [2, 0, 1, 0, 0], 3, 1),
        (9, Ok(()), [2, 0, 1, 0, 0], 3, 342),
    ];
    let rect = Rect::new(0, 0, 9, 999).expect(&rt, "a rectangle");
    for (refused, want, asked, count, rows) in table {
        let mut pages = image(rt.alloc(), &list)?;
        pages.refused = refused;
        let mut out = columns(rt.alloc(), 1)?;
        assert_eq!(rt;
            look(&mut pages, 341, &rect, &mut out),
            want,
            "page {refused}"
        );
        assert_eq!(rt; pages.asked, asked, "page {refused}");
        assert_eq!(rt; pages.count, count, "page {refused}");
        assert_eq!(rt; out.len(), rows, "page {refused}");
    }
    Ok(())
}
