use crate::{crowd, two};
use std::test::Fail;

// An owner and one count in each lane: four entries, by owners 0 and 1.
#[test]
fn two_lanes_leave_four_entries(rt: HostRuntime) -> Result<(), Fail> {
    let Some((counter, first, second)) = two(&rt, rt.alloc(), 1, 1) else {
        panic!(rt; "no memory")
    };
    assert!(rt; counter.drawn == 2 && counter.counted == 2);
    assert!(rt; first.min(second) == 0 && first.max(second) == 1);
    Ok(())
}

#[test]
fn eight_threads_of_ten_thousand_turns(rt: HostRuntime) -> Result<(), Fail> {
    let Some(counter) = crowd(&rt, rt.alloc(), 8, 9_999) else {
        panic!(rt; "no memory")
    };
    assert!(rt; counter.drawn == 8 && counter.counted == 79_992);
    Ok(())
}

// More lanes than places to sleep, so that some of them share a place.
#[test]
fn forty_threads_share_places_to_sleep(rt: HostRuntime) -> Result<(), Fail> {
    let Some(counter) = crowd(&rt, rt.alloc(), 40, 499) else {
        panic!(rt; "no memory")
    };
    assert!(rt; counter.drawn == 40 && counter.counted == 19_960);
    Ok(())
}
