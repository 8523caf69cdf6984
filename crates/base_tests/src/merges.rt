// Merges against a plain program, the worked merge, policies, and orders of points.

ghost use Rattle.std.specs.Prelude.{IfOk, All};
ghost use Rattle.order_merge.specs.Ascending.{Ascends};

use crate::marks::{Mark, folded};
use hilbert_key::{compare, value};
use order_merge::{Entry, merge_newest};
use std::alloc::{AllocError, Global};
use stored_rules::{OrderedBy, Policy, Rules, prefix_rule};

// A number for each of 48 merges, folded from the entries. The plain program bench/lists/merges.py prints the tables.
const ALL_KEPT: [u32; 48] = [
    0, 1653010772, 2858828847, 3301234793, 2453364200, 878744651, 0, 2300263884, 1599479781,
    3012219361, 2454883930, 1603384267, 0, 347829024, 1546528518, 1082117775, 559370075,
    2492718641, 0, 1265390453, 4240431402, 3017719498, 2290012164, 1438711824, 0, 1749179337,
    762517762, 3594308140, 3542755640, 4025334700, 0, 2682466269, 2916375865, 1966033402,
    3472069755, 2904631445, 0, 4290046485, 3831908862, 3293014037, 1003075336, 3888739660, 0,
    704060496, 1547167571, 156646986, 2631150779, 2692923618,
];

const ANTI_DROPPED: [u32; 48] = [
    0, 2719289033, 232404725, 2740255102, 1812360413, 2002852635, 0, 1488514293, 24073197,
    1344440219, 2943288334, 3751164622, 0, 3982461589, 1955655727, 3594686836, 1693028743,
    1481346204, 0, 3146297793, 4219915933, 4270337357, 1370226126, 1191933388, 0, 4217889120,
    520676931, 1095296492, 907156907, 2937967651, 0, 3997842896, 388386074, 17167715, 2310984643,
    4181894601, 0, 2624728556, 2154538592, 1879588037, 3782320863, 1331225322, 0, 2305686857,
    1801064057, 3177526131, 2881382055, 2388498593,
];

// The list of the keys whose bits are set.
fn list_of(alloc: Global, keys: u64, anti: u64, tag: u64) -> Result<Vec<Mark>, AllocError>
    ensures { IfOk result (λ marks. Ascends ⟦<Mark as Entry>⟧.reading marks.items) }
{
    let mut marks = Vec::new(alloc);
    for key in 0..64 {
        if keys >> key & 1 == 1 {
            marks.push(Mark {
                key,
                anti: anti >> key & 1 == 1,
                tag,
            })?;
        }
    }
    Ok(marks)
}

fn lists_of(alloc: Global, seed: u64) -> Result<Vec<Vec<Mark>>, AllocError>
    ensures { IfOk result (λ lists. All (λ list. Ascends ⟦<Mark as Entry>⟧.reading list.items) lists.items) }
{
    let mut lists = Vec::new(alloc);
    for list in 0..seed % 6 {
        let keys = seed
            .wrapping_mul(0x9E37_79B9_7F4A_7C15)
            .wrapping_add(list.wrapping_mul(0xBF58_476D_1CE4_E5B9));
        let anti = seed
            .wrapping_mul(0x94D0_49BB_1331_11EB)
            .wrapping_add(list.wrapping_mul(0xD6E8_FEB8_6659_FD93));
        lists.push(list_of(alloc, keys, anti, list)?)?;
    }
    Ok(lists)
}

#[test]
fn merges_are_those_of_a_plain_program(rt: HostRuntime) -> Result<(), AllocError> {
    for (seed, (all, matter)) in ALL_KEPT.iter().zip(ANTI_DROPPED.iter()).enumerate() {
        let lists = lists_of(rt.alloc(), seed as u64)?;
        let merged = merge_newest(rt.alloc(), &lists, false)?;
        assert_eq!(rt; folded(&merged), *all, "seed {seed}");
        let merged = merge_newest(rt.alloc(), &lists, true)?;
        assert_eq!(rt;
            folded(&merged),
            *matter,
            "seed {seed} without anti entries"
        );
    }
    Ok(())
}

#[test]
fn a_newer_anti_entry_hides_an_older_one(rt: HostRuntime) -> Result<(), AllocError> {
    let mut lists = Vec::new(rt.alloc());
    lists.push(list_of(rt.alloc(), 0b10, 0b10, 0)?)?;
    lists.push(list_of(rt.alloc(), 0b110, 0, 1)?)?;
    let one = Mark {
        key: 1,
        anti: true,
        tag: 0,
    };
    let two = Mark {
        key: 2,
        anti: false,
        tag: 1,
    };
    let dropped = merge_newest(rt.alloc(), &lists, true)?;
    assert_eq!(rt; dropped.as_slice(), [two].as_slice());
    let kept = merge_newest(rt.alloc(), &lists, false)?;
    assert_eq!(rt; kept.as_slice(), [one, two].as_slice());
    Ok(())
}

#[test]
fn policies_answer_what_they_were_made_of(rt: HostRuntime) -> Result<(), AllocError> {
    let never = Policy::new(Box::new(rt.alloc(), |_rows: &[u64]| None)?);
    assert_eq!(rt; never.ask(&[1, 2, 3]), None);
    let small = Policy::new(Box::new(rt.alloc(), |rows: &[u64]| prefix_rule(rows, 100, 2))?);
    for (rows, range) in [
        ([1, 100, 101], Some((0, 2))),
        ([1, 2, 3], Some((0, 3))),
        ([1, 101, 2], None),
        ([101, 1, 2], None),
    ] {
        assert_eq!(rt; small.ask(&rows), range, "{rows:?}");
    }
    assert_eq!(rt; small.ask(&[]), None);
    Ok(())
}

fn is_shared<T: Sync>(_value: &T) -> bool {
    true
}

#[test]
fn an_order_is_that_of_the_values(rt: HostRuntime) -> Result<(), AllocError> {
    let direct = OrderedBy::new(Box::new(rt.alloc(), |a: (u16, u16), b: (u16, u16)| {
        compare(a, b)
    })?);
    let by_value = OrderedBy::new(Box::new(rt.alloc(), |a: (u16, u16), b: (u16, u16)| {
        value(a.0, a.1).cmp(&value(b.0, b.1))
    })?);
    // In the order of the curve, by a walk over bits.
    let points = [
        (0, 0),
        (1, 0),
        (1, 1),
        (0, 1),
        (5, 5),
        (900, 900),
        (1200, 3400),
        (60000, 60000),
        (65535, 65535),
        (65535, 0),
    ];
    for (i, a) in points.iter().enumerate() {
        for (j, b) in points.iter().enumerate() {
            assert_eq!(rt; direct.compare(*a, *b), i.cmp(&j), "{a:?} {b:?}");
            assert_eq!(rt; by_value.compare(*a, *b), i.cmp(&j), "{a:?} {b:?}");
        }
    }
    let policy = Policy::new(Box::new(rt.alloc(), |_rows: &[u64]| None)?);
    let rules = Rules {
        policy,
        order: direct,
    };
    assert!(rt; is_shared(&rules));
    Ok(())
}
