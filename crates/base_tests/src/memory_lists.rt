// A component against a plain program, and what a view keeps.

use crate::marks::{Mark, folded};
use mem_comp::{MemComp, MemView};
use std::alloc::{AllocError, Global};

// A number for each of 32 components, folded from its entries. The plain program bench/lists/merges.py prints the table.
const HELD: [u32; 32] = [
    3757304708, 1527370506, 1524740244, 593273319, 1138513135, 401237635, 1405194907, 2271644523,
    3600029624, 2913948685, 3479725982, 1800928726, 3685466173, 3908088822, 3327739627, 274668479,
    3629831477, 4147595770, 2055876283, 202121866, 2749033891, 2425678690, 312172212, 2421614949,
    679622981, 3313086843, 76257739, 3414515008, 2025221950, 1176758187, 508374540, 4188591493,
];

fn held(alloc: Global, view: &MemView<Mark>) -> Result<Vec<Mark>, AllocError> {
    let mut marks = Vec::new(alloc);
    view.append_to(&mut marks)?;
    Ok(marks)
}

// Sixty additions and removals, drawn from a seed.
fn filled(alloc: Global, seed: u64) -> Result<MemComp<Mark>, AllocError> {
    let mut component = MemComp::new(alloc);
    let mut state = seed;
    for _ in 0..60 {
        state = state
            .wrapping_mul(6_364_136_223_846_793_005)
            .wrapping_add(1_442_695_040_888_963_407);
        let key = state >> 40 & 15;
        let what = state >> 50 & 3;
        if what == 0 {
            component.drop_key(&key);
        } else {
            component.reserve(1)?;
            component.add(Mark {
                key,
                anti: what == 1,
                tag: state >> 33 & 7,
            });
        }
    }
    Ok(component)
}

#[test]
fn a_component_holds_what_a_plain_program_holds(rt: HostRuntime) -> Result<(), AllocError> {
    for (seed, want) in HELD.iter().enumerate() {
        let component = filled(rt.alloc(), seed as u64)?;
        let marks = held(rt.alloc(), &component.share()?)?;
        assert_eq!(rt; folded(&marks), *want, "seed {seed}");
        for key in 0..16 {
            let want = marks.iter().find(|mark| mark.key == key).copied();
            assert_eq!(rt; component.get(&key), want, "seed {seed}, key {key}");
        }
    }
    Ok(())
}

#[test]
fn a_view_stays_as_it_was(rt: HostRuntime) -> Result<(), AllocError> {
    let first = Mark {
        key: 7,
        anti: false,
        tag: 1,
    };
    let mut component = MemComp::new(rt.alloc());
    component.reserve(1)?;
    component.add(first);
    let view = component.share()?;
    assert_eq!(rt; component.get(&7), Some(first));
    assert_eq!(rt; view.get(&7), Some(first));
    component.drop_key(&7);
    component.reserve(2)?;
    component.add(Mark {
        key: 8,
        anti: true,
        tag: 2,
    });
    assert_eq!(rt; component.get(&7), None);
    assert_eq!(rt; view.get(&7), Some(first));
    assert_eq!(rt; view.get(&8), None);
    let mut marks = held(rt.alloc(), &view)?;
    view.append_to(&mut marks)?;
    assert_eq!(rt; marks.as_slice(), [first, first].as_slice());
    Ok(())
}

#[test]
fn a_list_that_is_set_aside_leaves_none(rt: HostRuntime) -> Result<(), AllocError> {
    let first = Mark {
        key: 7,
        anti: false,
        tag: 1,
    };
    let mut component = MemComp::new(rt.alloc());
    component.reserve(1)?;
    component.add(first);
    let view = component.set_aside();
    assert_eq!(rt; view.len(), 1);
    assert_eq!(rt; view.get(&7), Some(first));
    assert_eq!(rt; component.get(&7), None);
    assert_eq!(rt; component.set_aside().len(), 0);
    Ok(())
}
