// Worked examples and laws of the definitions, each as the contract of a function that does nothing.
ghost use Rattle.std.specs.Prelude.{◌≡◌};
ghost use Rattle.superblock.specs.Superblock.{superblock_bytes};
ghost use Rattle.device_format.specs.Formatting.{HasNoStore};
ghost use Rattle.device_format.specs.Examples.{example_superblock, zero_story, AreCounted, HaveNoOpenSlot, HaveOneSuperblock};

/// Worked examples: a superblock, byte by byte; a device of zeros has no store; and how many calls a format makes.
pub fn worked_formats()
    ensures superblock { superblock_bytes 4 4096 ≡ example_superblock }
    ensures zeros { HasNoStore zero_story }
    ensures calls { AreCounted }
{}

/// Laws: an open slot makes any image another one than that of an empty store, and the pages and the indexes of an empty
/// store determine its superblock.
pub fn empty_stores()
    ensures slots { HaveNoOpenSlot }
    ensures superblock { HaveOneSuperblock }
{}
