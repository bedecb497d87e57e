// Laws of disks in memory.
ghost use Rattle.sg_memory_disk.specs.Images.{AllPicked};

/// Each image that a crash may leave is one that picks give, where no sync failed since the last one
/// that was done.
pub fn images_are_picked()
    ensures { AllPicked }
{}
