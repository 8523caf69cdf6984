//! Filters against the bytes and answers of a plain program.

use bloom_bits::{Bloom, BloomFault, bits_for, mix};
use std::test::Fail;

struct Case {
    keys: &'static [u64],
    bytes: &'static [u8],
    yes: &'static [u64],
    no: &'static [u64],
}

// The last filter takes 7 for one of its keys.
const CASES: [Case; 6] = [
    Case {
        keys: &[],
        bytes: &[0, 0, 0, 0, 0, 0, 0, 0],
        yes: &[],
        no: &[0, 5, 7],
    },
    Case {
        keys: &[7],
        bytes: &[0, 0, 128, 16, 66, 8, 1, 0],
        yes: &[7],
        no: &[0, 1, 2, 3, 4, 5, 6, 8],
    },
    Case {
        keys: &[0, 18446744073709551615],
        bytes: &[32, 96, 128, 68, 1, 136, 8, 16],
        yes: &[0, 18446744073709551615],
        no: &[1, 2, 3, 4],
    },
    Case {
        keys: &[1, 2, 3, 4, 5, 6],
        bytes: &[27, 198, 168, 92, 13, 104, 102, 163],
        yes: &[1, 2, 3, 4, 5, 6],
        no: &[0, 7, 8, 9, 10, 11],
    },
    Case {
        keys: &[1, 2, 3, 4, 5, 6, 7],
        bytes: &[11, 13, 98, 204, 179, 103, 8, 52, 80],
        yes: &[1, 2, 3, 4, 5, 6, 7],
        no: &[0, 8, 9, 10, 11, 12, 13],
    },
    Case {
        keys: &[
            1,
            10,
            100,
            1000,
            10000,
            100000,
            1000000,
            10000000,
            100000000,
            1000000000,
            10000000000,
            100000000000,
            1000000000000,
            10000000000000,
            100000000000000,
            1000000000000000,
            10000000000000000,
            100000000000000000,
            1000000000000000000,
            10000000000000000000,
        ],
        bytes: &[
            228, 176, 18, 189, 113, 172, 88, 30, 167, 163, 169, 84, 112, 105, 70, 248, 41, 204, 83,
            40, 150, 1, 167, 55, 134,
        ],
        yes: &[1, 7, 10, 1000, 10000000000000000000],
        no: &[0, 2, 3, 4, 5, 6, 8, 9, 11],
    },
];

#[test]
fn filters_have_the_bytes_and_answers_of_the_model(rt: HostRuntime) -> Result<(), Fail> {
    for case in &CASES {
        assert!(rt; case.keys.len() < 100);
        let built = Bloom::build(rt.alloc(), case.keys)?;
        assert_eq!(rt; built.bytes(), case.bytes);
        let read = Bloom::decode(rt.alloc(), built.bytes(), built.bits())?;
        for key in case.yes {
            assert!(rt; read.maybe(*key), "{key} is denied");
        }
        for key in case.no {
            assert!(rt; !read.maybe(*key), "{key} is not denied");
        }
    }
    Ok(())
}

#[test]
fn numbers_of_the_model(rt: HostRuntime) {
    for (keys, bits) in [
        (0, 64),
        (1, 64),
        (6, 64),
        (7, 72),
        (8, 80),
        (999, 9992),
        (268435455, 2684354552),
        (4294967295, 42949672952),
    ] {
        assert_eq!(rt; bits_for(keys), bits, "of {keys} keys");
    }
    for (number, mixed) in [
        (0, 0),
        (1, 0x5692161d100b05e5),
        (0x9e3779b97f4a7c15, 0xe220a8397b1dcdaf),
    ] {
        assert_eq!(rt; mix(number), mixed, "of {number}");
    }
}

#[test]
fn sizes_that_are_no_filter(rt: HostRuntime) {
    let bytes = [0; 9];
    for (len, bits, want) in [
        (7, 64, false),
        (8, 64, true),
        (8, 72, false),
        (7, 56, false),
        (9, 72, true),
        (9, 71, false),
        (0, 0, false),
    ] {
        let len: usize = len;
        assert!(rt; len <= 9);
        match Bloom::decode(rt.alloc(), &bytes[..len], bits) {
            Ok(filter) => assert!(rt; want && filter.bits() == bits, "{bits} bits in {len} bytes"),
            Err(fault) => assert!(rt;
                !want && fault == BloomFault::BadBloom,
                "{bits} bits in {len} bytes"
            ),
        }
    }
}
