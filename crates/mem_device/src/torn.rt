// What a crash leaves of a range that was written and not synced.
ghost use Rattle.std.specs.Prelude.{◌≡◌, ◌+◌, ◌≤◌, ℕ, length, slice_index};
ghost use Rattle.dev_model.specs.Story.{place};
ghost use Rattle.mem_device.specs.TornImages.{overlaid};

#[derive(Clone, Copy, Debug, PartialEq, Eq)]
pub enum Torn {
    /// The bytes from before the write.
    Old,
    /// The new bytes.
    New,
    /// This byte everywhere.
    Fill(u8),
    /// So many of the new bytes, and then the old ones.
    Front(u64),
}

/// Puts into the range of a write what a crash leaves there.
pub fn overlay(torn: Torn, at: usize, new: &[u8], image: &mut [u8])
    requires { at + length new.now ≤ length image.old }
    ensures { (i : ℕ) → slice_index image.new i ≡ overlaid torn at new.now (place image.old) i }
{
    match torn {
        Torn::Old => {}
        Torn::New => image[at..at + new.len()].copy_from_slice(new),
        Torn::Fill(byte) => image[at..at + new.len()].fill(byte),
        Torn::Front(count) => {
            let count = new.len().min(count as usize);
            image[at..at + count].copy_from_slice(&new[..count]);
        }
    }
}
