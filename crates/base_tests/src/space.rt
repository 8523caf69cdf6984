//! Maps against a plain program that keeps a mark for each page.

use space_map::{Extent, SpaceFault, SpaceMap};
use std::test::Fail;

#[derive(Clone, Copy)]
enum Step {
    Reserve(u32),
    Release,
}

// Each step, the extent that it reserves or releases, or why it is refused, and the longest free run after it.
#[test]
fn steps_of_the_model(rt: HostRuntime) {
    let table = [
        (
            Step::Reserve(100),
            Ok(Extent {
                first: 265,
                pages: 100,
            }),
            659,
        ),
        (
            Step::Reserve(50),
            Ok(Extent {
                first: 365,
                pages: 50,
            }),
            609,
        ),
        (
            Step::Reserve(10),
            Ok(Extent {
                first: 415,
                pages: 10,
            }),
            599,
        ),
        (
            Step::Reserve(60),
            Ok(Extent {
                first: 425,
                pages: 60,
            }),
            539,
        ),
        (
            Step::Reserve(539),
            Ok(Extent {
                first: 485,
                pages: 539,
            }),
            0,
        ),
        (
            Step::Reserve(1),
            Err(SpaceFault::NoRun {
                need: 1,
                longest: 0,
            }),
            0,
        ),
        (
            Step::Release,
            Ok(Extent {
                first: 265,
                pages: 100,
            }),
            100,
        ),
        (
            Step::Release,
            Ok(Extent {
                first: 415,
                pages: 10,
            }),
            100,
        ),
        (
            Step::Reserve(8),
            Ok(Extent {
                first: 265,
                pages: 8,
            }),
            92,
        ),
        (
            Step::Reserve(95),
            Err(SpaceFault::NoRun {
                need: 95,
                longest: 92,
            }),
            92,
        ),
        (
            Step::Release,
            Ok(Extent {
                first: 365,
                pages: 50,
            }),
            152,
        ),
        (
            Step::Release,
            Ok(Extent {
                first: 425,
                pages: 60,
            }),
            212,
        ),
        (
            Step::Reserve(120),
            Ok(Extent {
                first: 273,
                pages: 120,
            }),
            92,
        ),
        (
            Step::Reserve(121),
            Err(SpaceFault::NoRun {
                need: 121,
                longest: 92,
            }),
            92,
        ),
        (
            Step::Reserve(1),
            Ok(Extent {
                first: 393,
                pages: 1,
            }),
            91,
        ),
        (
            Step::Release,
            Ok(Extent {
                first: 485,
                pages: 539,
            }),
            630,
        ),
        (
            Step::Release,
            Ok(Extent {
                first: 265,
                pages: 8,
            }),
            630,
        ),
        (
            Step::Reserve(700),
            Err(SpaceFault::NoRun {
                need: 700,
                longest: 630,
            }),
            630,
        ),
        (
            Step::Reserve(9),
            Ok(Extent {
                first: 394,
                pages: 9,
            }),
            621,
        ),
    ];
    let mut map = SpaceMap::new(rt.alloc(), 1024);
    for (at, (step, want, longest)) in table.iter().enumerate() {
        match (step, want) {
            (Step::Reserve(count), want) => {
                let count = *count;
                assert!(rt; count > 0);
                assert_eq!(rt; map.reserve(count), *want, "step {at}");
            }
            (Step::Release, Ok(extent)) => {
                let extent = *extent;
                assert!(rt; map.has(extent), "step {at}");
                map.release(extent);
            }
            (Step::Release, Err(_)) => assert!(rt; false),
        }
        assert_eq!(rt; map.longest(), *longest, "step {at}");
    }
}

#[test]
fn a_full_device_and_a_taken_extent(rt: HostRuntime) -> Result<(), Fail> {
    let mut map = SpaceMap::new(rt.alloc(), 1024);
    let all = map.reserve(759)?;
    assert_eq!(rt;
        all,
        Extent {
            first: 265,
            pages: 759
        }
    );
    assert_eq!(rt;
        map.reserve(1),
        Err(SpaceFault::NoRun {
            need: 1,
            longest: 0
        })
    );
    assert!(rt; map.has(all));
    map.release(all);
    assert_eq!(rt;
        map.reserve(2)?,
        Extent {
            first: 265,
            pages: 2
        }
    );

    let mut other = SpaceMap::new(rt.alloc(), 1024);
    other.take(Extent {
        first: 300,
        pages: 10,
    })?;
    assert_eq!(rt; other.longest(), 714);
    Ok(())
}
