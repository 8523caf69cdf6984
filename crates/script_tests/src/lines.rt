// Numbers, commands and printed lines. Whole scripts are read as cases of the program that makes calls in memory.

use geo_base::{Note, Point, Row};
use mem_device::{MemSink, MemSource};
use script_lang::{
    Answer, Command, RowList, Why, print_answer, print_refused, read_number, read_script,
};
use std::test::Fail;

#[test]
fn numbers_have_a_greatest(rt: HostRuntime) {
    for (word, most, wanted) in [
        (b"0".as_slice(), 0, Some(0)),
        (b"00000000000000000016", 16, Some(16)),
        (b"17", 16, None),
        (b"18446744073709551615", u64::MAX, Some(u64::MAX)),
        (b"18446744073709551616", u64::MAX, None),
        (b"99999999999999999999", u64::MAX, None),
        (b"000000000000000000001", u64::MAX, None),
        (b"", 16, None),
        (b"1x", 16, None),
    ] {
        assert_eq!(rt; read_number(word, most), wanted);
    }
}

fn row(key: u64, x: u16, note: &[u8]) -> Option<Row> {
    let Ok(note) = Note::new(note) else {
        return None;
    };
    Some(Row {
        key,
        point: Point { x, y: 65535 },
        note,
    })
}

#[test]
fn a_line_is_its_command(rt: HostRuntime) -> Result<(), Fail> {
    let alloc = rt.alloc();
    let mut source = MemSource::new(
        b"del 3\nget 4\ncount\nflush".to_vec(alloc)?,
        Vec::new(alloc),
    );
    let Ok(script) = read_script(alloc, &mut source) else {
        return Err(Fail::from("the script isn't read"));
    };
    match script.setup.as_slice() {
        [
            Command::Del(deleted),
            Command::Get(asked),
            Command::Count,
            Command::Flush,
        ] => {
            assert_eq!(rt; (*deleted, *asked), (3, 4));
        }
        _ => return Err(Fail::from("the script has other commands")),
    }
    Ok(())
}

#[test]
fn what_stood_at_a_key_is_printed(rt: HostRuntime) -> Result<(), Fail> {
    let alloc = rt.alloc();
    let Some(row) = row(1, 40000, &[b'~'; 64]) else {
        return Err(Fail::from("the row has no note"));
    };
    let answers = [
        Answer::DelNone,
        Answer::DelOld(row.point, row.note),
        Answer::GetNone,
        Answer::GetOld(row.point, row.note),
        Answer::Counted(u64::MAX),
    ];
    let mut out = MemSink::new(alloc, 4096, Vec::new(alloc))?;
    for answer in &answers {
        assert!(rt; print_answer(&mut out, 3, 0, answer).is_ok());
    }
    let wanted =
        b"3 0 del none\n3 0 del old 40000 65535 ~~~~~~~~~~~~~~~~~~~~~~~~~~~~~~~~~~~~~~~~~~~~~~~~~~~~~~~~~~~~~~~~\n3 0 get none\n3 0 get 40000 65535 ~~~~~~~~~~~~~~~~~~~~~~~~~~~~~~~~~~~~~~~~~~~~~~~~~~~~~~~~~~~~~~~~\n3 0 count 18446744073709551615\n";
    assert_eq!(rt; out.taken(), wanted.as_slice());
    Ok(())
}

#[test]
fn answers_and_refusals_are_printed(rt: HostRuntime) -> Result<(), Fail> {
    let alloc = rt.alloc();
    let mut rows = RowList::new(alloc);
    rows.reserve(2)?;
    for row in [row(u64::MAX, 0, b""), row(9, 40000, &[b'~'; 64])] {
        if let Some(row) = row {
            rows.reserve(1)?;
            rows.add(row);
        }
    }
    let mut out = MemSink::new(alloc, 4096, Vec::new(alloc))?;
    assert!(rt; print_answer(&mut out, u64::MAX, 0, &Answer::PutNew).is_ok());
    assert!(rt; print_answer(&mut out, 12, 8, &Answer::Rows(rows)).is_ok());
    assert!(rt; print_refused(&mut out, 8, Why::NoIndex).is_ok());
    let wanted =
        b"18446744073709551615 0 put new\n12 8 region 2\n= 18446744073709551615 0 65535 -\n= 9 40000 65535 ~~~~~~~~~~~~~~~~~~~~~~~~~~~~~~~~~~~~~~~~~~~~~~~~~~~~~~~~~~~~~~~~\n- 8 noindex\n";
    assert_eq!(rt; out.taken(), wanted.as_slice());
    Ok(())
}
