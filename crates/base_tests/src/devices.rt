// Calls that fail, images that are torn, and a device that tells nothing. Expected bytes are worked out by hand.
ghost use Rattle.std.specs.Prelude.{◌≡◌, ◌≤◌, IfOk};

use dev_model::{Device, Failed, write_synced};
use mem_device::{ImageFault, MemDevice, Torn};
use std::alloc::{AllocError, Global};
use std::test::Fail;

/// Passes each call on and tells nothing.
#[derive(Drop)]
struct Hidden {
    inner: MemDevice,
}

impl Device for Hidden {
    ghost use Rattle.std.specs.Prelude.{None, length};
    ghost use Rattle.dev_model.specs.Laws.Plans.{no_story};

    ghost seen = { λ d. record { pages = d.inner.pages; clock = length d.inner.past; faults = d.inner.faults; story = None } };

    fn pages(&self) -> u32 {
        self.inner.pages()
    }

    fn clock(&self) -> u64 {
        self.inner.clock()
    }

    fn faults(&self) -> u64 {
        self.inner.faults()
    }

    fn read(&mut self, at: u64, buf: &mut [u8]) -> Result<(), Failed> {
        self.inner.read(at, buf)
    }

    fn write(&mut self, at: u64, bytes: &[u8]) -> Result<(), Failed> {
        self.inner.write(at, bytes)
    }

    fn sync(&mut self) -> Result<(), Failed> {
        self.inner.sync()
    }

    ghost clock_told = { λ _ s is. no_story s is };
}

fn one_page(alloc: Global, fail: Vec<u64>) -> Result<MemDevice, AllocError>
    ensures { IfOk result (λ d. d.pages ≡ 1) }
{
    let device = MemDevice::new(alloc, 1, 8, 64, fail)?;
    Ok(device)
}

fn six_bytes<D: Device>(device: &mut D) -> Result<[u8; 6], Failed>
    requires { 1 ≤ (D.seen device.old).pages }
    ensures { (D.seen device.new).pages ≡ (D.seen device.old).pages }
{
    let mut buf = [0; 6];
    device.read(0, &mut buf)?;
    Ok(buf)
}

/// The first six bytes of an image.
fn image_bytes(device: &MemDevice, moment: u64, torn: Torn) -> Option<[u8; 6]>
    requires { 1 ≤ device.now.pages }
{
    let mut image = device.image_at(moment, torn).ok()?;
    six_bytes(&mut image).ok()
}

#[test]
fn fails_where_it_is_told_and_past_its_room(rt: HostRuntime) -> Result<(), Fail> {
    let mut device = MemDevice::new(rt.alloc(), 1024, 3, 100, [2].to_vec(rt.alloc())?)?;
    assert_eq!(rt; device.sync(), Ok(()));
    assert_eq!(rt; device.write(0, &[7]), Err(Failed));
    assert_eq!(rt; device.sync(), Ok(()));
    assert_eq!(rt; device.write(0, &[8]), Err(Failed));
    assert_eq!(rt; (device.clock(), device.faults()), (4, 2));
    for (moment, torn, first) in [
        (1, Torn::Old, Some(0)),
        (1, Torn::New, Some(7)),
        (3, Torn::New, Some(0)),
        (4, Torn::New, Some(0)),
        (5, Torn::New, None),
    ] {
        assert_eq!(rt;
            image_bytes(&device, moment, torn).map(|bytes| bytes[0]),
            first,
            "at {moment}"
        );
    }
    assert_eq!(rt;
        device.image_at(5, Torn::Old).err(),
        Some(ImageFault::NoMoment)
    );
    Ok(())
}

#[test]
fn ranges_that_are_not_synced_are_torn_in_turn(rt: HostRuntime) -> Result<(), Fail> {
    let mut device = one_page(rt.alloc(), [5].to_vec(rt.alloc())?)?;
    assert_eq!(rt; device.write(0, &[1, 1, 1, 1]), Ok(()));
    assert_eq!(rt; device.write(2, &[2, 2, 2, 2]), Ok(()));
    assert_eq!(rt; device.sync(), Ok(()));
    assert_eq!(rt; device.write(1, &[3]), Ok(()));
    assert_eq!(rt; device.write(4, &[4, 4]), Err(Failed));
    assert_eq!(rt; six_bytes(&mut device), Ok([1, 3, 2, 2, 2, 2]));
    for (moment, torn, bytes) in [
        (0, Torn::Old, [0, 0, 0, 0, 0, 0]),
        (0, Torn::New, [1, 1, 1, 1, 0, 0]),
        (1, Torn::Old, [0, 0, 0, 0, 0, 0]),
        (1, Torn::New, [1, 1, 2, 2, 2, 2]),
        (2, Torn::Fill(9), [9, 9, 9, 9, 9, 9]),
        (2, Torn::Front(3), [1, 1, 2, 2, 2, 0]),
        (2, Torn::Front(1), [1, 0, 2, 0, 0, 0]),
        (2, Torn::Front(9), [1, 1, 2, 2, 2, 2]),
        (3, Torn::Old, [1, 1, 2, 2, 2, 2]),
        (3, Torn::New, [1, 3, 2, 2, 2, 2]),
        (4, Torn::Fill(9), [1, 9, 2, 2, 9, 9]),
        (6, Torn::New, [1, 3, 2, 2, 4, 4]),
        (6, Torn::Front(1), [1, 3, 2, 2, 4, 2]),
    ] {
        assert_eq!(rt;
            image_bytes(&device, moment, torn),
            Some(bytes),
            "at {moment} by {torn:?}"
        );
    }
    Ok(())
}

#[test]
fn a_byte_is_changed_in_each_image(rt: HostRuntime) -> Result<(), Fail> {
    let mut device = one_page(rt.alloc(), Vec::new(rt.alloc()))?;
    assert_eq!(rt; device.write(1, &[1, 1, 1]), Ok(()));
    assert_eq!(rt; device.write(2, &[2, 2]), Ok(()));
    device.poke(2, 5);
    assert_eq!(rt; six_bytes(&mut device), Ok([0, 1, 5, 2, 0, 0]));
    for (torn, bytes) in [
        (Torn::Old, [0, 0, 5, 0, 0, 0]),
        (Torn::New, [0, 1, 5, 2, 0, 0]),
        (Torn::Front(1), [0, 1, 5, 0, 0, 0]),
        (Torn::Fill(9), [0, 9, 9, 9, 0, 0]),
    ] {
        assert_eq!(rt; image_bytes(&device, 2, torn), Some(bytes), "by {torn:?}");
    }
    Ok(())
}

#[test]
fn a_device_that_tells_nothing_does_the_same(rt: HostRuntime) -> Result<(), Fail> {
    let inner = one_page(rt.alloc(), [4].to_vec(rt.alloc())?)?;
    let mut device = Hidden { inner };
    assert_eq!(rt; write_synced(&mut device, 1, &[1, 2]), Ok(()));
    assert_eq!(rt; write_synced(&mut device, 4, &[3]), Err(Failed));
    assert_eq!(rt; (device.clock(), device.faults()), (4, 1));
    assert_eq!(rt; six_bytes(&mut device), Ok([0, 1, 2, 0, 3, 0]));
    assert_eq!(rt;
        image_bytes(&device.inner, 4, Torn::Old),
        Some([0, 1, 2, 0, 0, 0])
    );
    Ok(())
}
