// A device's pages, lent for as long as the device is borrowed.
ghost use Rattle.std.specs.Prelude.{◌≡◌, ◌+◌, ◌*◌, ◌<◌, ◌≤◌, ◌^◌, ℕ, IsTrue, All};
ghost use Rattle.space_map.specs.Space.{end_of};
ghost use Rattle.device_pages.specs.Lending.{lending_of};
ghost use Rattle.device_pages.specs.Asked.{Asked};

use dev_model::{Device, Failed, Pages};
use space_map::Extent;

// How many bytes a page has.
const PAGE_BYTES: u64 = 4096;

/// The pages of some extents of a device, lent for reading for as long as the device is borrowed.
///
/// Where no write has failed on these pages since they were written, the bytes of each are told.
#[derive(Drop)]
pub struct DevicePages<'a, D: Device> {
    device: &'a mut D,
    extents: &'a [Extent],
    ghost on_device: { All (λ e. end_of e ≤ (D.seen device.now).pages) extents.now },
    ghost fits: { (D.seen device.now).pages < 2 ^ 32 },
}

impl<'a, D: Device> DevicePages<'a, D> {
    /// Lends the pages of extents that end on the device.
    pub fn new(device: &'a mut D, extents: &'a [Extent]) -> DevicePages<'a, D>
        requires { All (λ e. end_of e ≤ (D.seen device.old).pages) extents.now }
        ensures same_device { result.device.ghost_name ≡ device.entry.ghost_name }
        ensures untouched { result.device.now ≡ device.old }
        ensures extents { result.extents.now ≡ extents.now }
    {
        // A device's length fits a u32, and so does the number of each page.
        let _pages = device.pages();
        DevicePages { device, extents }
    }
}

impl<D: Device> Pages for DevicePages<'_, D> {
    ghost use Rattle.std.proofs.Common.{refl, ◌∙◌};
    ghost use Rattle.device_pages.specs.Laws.Asked.{asked-none, asked-then};
    ghost use Rattle.device_pages.specs.Laws.Lending.{lent_fits};

    ghost lending = { λ pages. lending_of pages.extents.now (D.seen pages.device.now) };

    ghost asked = { λ old new reads.
        (new.device.ghost_name ≡ old.device.ghost_name)
        × (new.extents.now ≡ old.extents.now)
        × Asked reads (D.seen old.device.now) (D.seen new.device.now) };

    fn faults(&self) -> u64 {
        self.device.faults()
    }

    fn read_page(&mut self, page: u32, buf: &mut [u8; 4096]) -> Result<(), Failed> {
        self.device.read(u64::from(page) * PAGE_BYTES, buf)
    }

    ghost lent_fits = { λ pages page h. lent_fits (D.seen pages.device.now).pages pages.extents.now page pages.on_device pages.fits h };

    ghost asked_none = { λ pages. (refl, refl, asked-none (D.seen pages.device.now)) };

    ghost asked_then = { λ first second third xs ys so_far more. (
      more.0 ∙ so_far.0,
      more.1 ∙ so_far.1,
      asked-then (D.seen first.device.now) (D.seen second.device.now)
          (D.seen third.device.now) xs ys so_far.2 more.2,
    ) };
}
