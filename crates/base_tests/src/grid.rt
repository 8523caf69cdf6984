use geo_base::{ItemList, Note, Point, Rect};
use std::test::Fail;

#[test]
fn a_list_grows(rt: HostRuntime) -> Result<(), Fail> {
    let mut list = ItemList::new(rt.alloc());
    assert!(rt; list.is_empty());
    for n in 0..100u32 {
        list.reserve(1)?;
        list.add(n);
    }
    assert_eq!(rt; list.len(), 100);
    assert_eq!(rt; list.as_slice()[99], 99);
    Ok(())
}

#[test]
fn edges_are_inside(rt: HostRuntime) -> Result<(), Fail> {
    let rows = [
        ((3, 4), true),
        ((9, 8), true),
        ((2, 4), false),
        ((3, 3), false),
        ((10, 8), false),
        ((9, 9), false),
    ];
    let rect = Rect::new(3, 4, 9, 8);
    assert!(rt; rect.is_ok());
    for ((x, y), inside) in rows {
        assert_eq!(rt; rect.is_ok_and(|r| r.inside(Point { x, y })), inside);
    }
    Ok(())
}

#[test]
fn the_first_fault_of_a_note_is_named(rt: HostRuntime) -> Result<(), Fail> {
    let rows = [
        (b"".as_slice(), None),
        (b"--", None),
        (b"-", Some(0)),
        (b"a b", Some(1)),
        (b"!~\x7f", Some(2)),
        (&[b'x'; 64], None),
        (&[b'x'; 65], Some(64)),
        (&[b' '; 65], Some(0)),
    ];
    for (bytes, at) in rows {
        match Note::new(bytes) {
            Ok(note) => {
                assert_eq!(rt; note.bytes(), bytes);
                assert!(rt; at.is_none());
            }
            Err(e) => assert_eq!(rt; Some(e.at), at),
        }
    }
    Ok(())
}
