// Points, values and cells that were reckoned apart from the program.

use hilbert_key::{CELL_ORDER, cell, compare, point_of, square_values, value};
use std::cmp::Ordering;

// Ascending along the curve. The small square at the origin is the curve of order 2; the other values
// are those of bench/curve/cells.py.
#[test]
fn points_lie_along_the_curve(rt: HostRuntime) {
    let rows = [
        ((0, 0), 0, 0),
        ((1, 0), 1, 0),
        ((1, 1), 2, 0),
        ((0, 1), 3, 0),
        ((2, 2), 8, 0),
        ((2, 0), 14, 0),
        ((3, 0), 15, 0),
        ((255, 255), 43690, 0),
        ((0, 256), 240298, 3),
        ((12345, 54321), 1555040834, 23728),
        ((32767, 32768), 2147483647, 32767),
        ((32768, 32768), 2147483648, 32768),
        ((65535, 65535), 2863311530, 43690),
        ((54321, 12345), 4128246504, 62992),
        ((65535, 0), 4294967295, 65535),
    ];
    let mut before = None;
    for ((x, y), place, number) in rows {
        assert_eq!(rt; value(x, y), place);
        assert_eq!(rt; point_of(place), (x, y));
        assert_eq!(rt; cell(x, y), number);
        let (first, last) = square_values(x, y, CELL_ORDER);
        assert!(rt; first <= place && place <= last);
        assert_eq!(rt; compare((x, y), (x, y)), Ordering::Equal);
        if let Some(point) = before {
            assert_eq!(rt; compare(point, (x, y)), Ordering::Less);
            assert_eq!(rt; compare((x, y), point), Ordering::Greater);
        }
        before = Some((x, y));
    }
}
