// Pages of a device in memory, of which two are lent.
ghost use Rattle.std.specs.Prelude.{◌≡◌, ◌≤◌, [], ◌∷◌, IsTrue, is_ok};

use dev_model::{Device, Failed, Pages};
use device_pages::DevicePages;
use mem_device::MemDevice;
use space_map::Extent;
use std::test::Fail;

fn first_byte<P: Pages>(pages: &mut P, page: u32) -> Result<u8, Failed>
    requires { IsTrue ((P.lending pages.old).lent page) }
    ensures same_lent { (P.lending pages.new).lent ≡ (P.lending pages.old).lent }
    ensures asked { P.asked pages.old pages.new ((page, is_ok result) ∷ []) }
{
    let mut buf = [9; 4096];
    pages.read_page(page, &mut buf)?;
    Ok(buf[0])
}

/// The first bytes of the pages 1, 2 and again 1.
fn first_bytes<D: Device>(device: &mut D) -> [Result<u8, Failed>; 3]
    requires { 3 ≤ (D.seen device.old).pages }
    ensures { (D.seen device.new).pages ≡ (D.seen device.old).pages }
{
    let extents = [Extent { first: 1, pages: 2 }];
    let mut pages = DevicePages::new(device, &extents);
    [
        first_byte(&mut pages, 1),
        first_byte(&mut pages, 2),
        first_byte(&mut pages, 1),
    ]
}

#[test]
fn pages_are_read_but_where_a_call_fails(rt: HostRuntime) -> Result<(), Fail> {
    // The call that fails, what the reads give, and the faults that are counted.
    for (fails, bytes, faults) in [
        (0, [Ok(7), Ok(8), Ok(7)], 0),
        (1, [Ok(0), Ok(8), Ok(0)], 1),
        (4, [Ok(7), Err(Failed), Ok(7)], 1),
    ] {
        let mut device = MemDevice::new(rt.alloc(), 3, 8, 16, [fails].to_vec(rt.alloc())?)?;
        let _ = device.write(4096, &[7]);
        let _ = device.write(8192, &[8]);
        assert_eq!(rt; first_bytes(&mut device), bytes, "call {fails} fails");
        assert_eq!(rt; (device.clock(), device.faults()), (5, faults));
    }
    Ok(())
}
