//! Pages against the bytes of a plain program, and the table of kinds.

ghost use Rattle.page_codec.specs.Adding.{IsKind};

use page_codec::{
    BadPage, DICTIONARY_INNER, PAGE_BYTES, is_kind, new_page, open_page, put_row, row,
    rows_per_page, width_of,
};

// Puts a row where the page has room.
fn put(page: &mut [u8; PAGE_BYTES], kind: u8, level: u8, bytes: &[u8]) -> bool
    requires { IsKind kind }
{
    match open_page(page, kind, level) {
        Ok(count) if count < rows_per_page(kind) && bytes.len() == width_of(kind) => {
            put_row(page, bytes);
            true
        }
        _ => false,
    }
}

// A row, where the page has it.
fn read(page: &[u8; PAGE_BYTES], kind: u8, level: u8, i: u16) -> Option<&[u8]>
    requires { IsKind kind }
{
    match open_page(page, kind, level) {
        Ok(count) if i < count => Some(row(page, i)),
        _ => None,
    }
}

#[test]
fn kinds_have_the_widths_of_the_format(rt: HostRuntime) {
    let table = [
        (78, 52),
        (12, 340),
        (12, 340),
        (12, 340),
        (8, 511),
        (12, 340),
        (13, 314),
        (16, 255),
        (13, 314),
        (16, 255),
        (11, 371),
        (14, 292),
        (10, 408),
        (6, 681),
        (9, 454),
    ];
    for (kind, (width, rows)) in (1..16).zip(table) {
        assert!(rt; is_kind(kind), "kind {kind}");
        assert_eq!(rt; width_of(kind), width, "of kind {kind}");
        assert_eq!(rt; rows_per_page(kind), rows, "of kind {kind}");
    }
    for kind in [0, 16, 47, 255] {
        assert!(rt; !is_kind(kind), "kind {kind}");
    }
}

#[test]
fn a_page_takes_rows_until_it_is_full(rt: HostRuntime) {
    let mut page = [9; PAGE_BYTES];
    new_page(DICTIONARY_INNER, 1, &mut page);
    for i in 0..681u16 {
        let low = (i % 256) as u8;
        assert!(rt;
            put(
                &mut page,
                DICTIONARY_INNER,
                1,
                &[1, 2, 3, 4, (i / 256) as u8, low]
            ),
            "row {i}"
        );
    }
    assert!(rt; !put(&mut page, DICTIONARY_INNER, 1, &[0; 6]));
    assert_eq!(rt;
        &page[..20],
        [
            14, 1, 2, 169, 0, 0, 0, 0, 1, 2, 3, 4, 0, 0, 1, 2, 3, 4, 0, 1
        ]
        .as_slice()
    );
    assert_eq!(rt; &page[4088..], [1, 2, 3, 4, 2, 168, 0, 0].as_slice());
    assert_eq!(rt;
        read(&page, DICTIONARY_INNER, 1, 300),
        Some([1, 2, 3, 4, 1, 44].as_slice())
    );
    assert_eq!(rt; read(&page, DICTIONARY_INNER, 1, 681), None);
}

#[test]
fn headers_that_are_refused(rt: HostRuntime) {
    let mut full = [0; PAGE_BYTES];
    full[0] = 14;
    full[1] = 1;
    full[2] = 2;
    full[3] = 169;
    let table = [
        (0, 13, Err(BadPage)),
        (1, 0, Err(BadPage)),
        (2, 3, Err(BadPage)),
        (3, 170, Err(BadPage)),
        (3, 168, Ok(680)),
        (4, 1, Err(BadPage)),
        (5, 1, Err(BadPage)),
        (6, 1, Err(BadPage)),
        (7, 1, Err(BadPage)),
        (8, 1, Ok(681)),
        (4095, 1, Ok(681)),
    ];
    for (at, byte, want) in table {
        let at: usize = at;
        let mut page = full;
        assert!(rt; at < PAGE_BYTES);
        page[at] = byte;
        assert_eq!(rt;
            open_page(&page, DICTIONARY_INNER, 1),
            want,
            "byte {at} is {byte}"
        );
    }
}
