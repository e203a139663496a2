//! Laws of disks and their clients. Each is the contract of a function that does nothing.

ghost use Rattle.usb_bot_law.specs.Gathering.{WritesAreGathered};
ghost use Rattle.usb_bot_law.specs.DiskLaws.{NewDiskServes, ReadsAnswerBlocks, WritesChangeBlocks, BrokenClientsReadNothing, BrokenClientsWriteNothing, DiskIsList};

/// A new bus with a disk serves a new client.
#[tactic(auto, using(crate::proofs::LawLemmas::new_serves))]
pub fn new_disk_serves()
    ensures serves { NewDiskServes }
{}

/// What one call of a client answers, and what it leaves of the disk: a read, a write, and each of
/// them of a client that is broken.
#[tactic(auto, using(crate::proofs::LawLemmas::reads_answer, crate::proofs::LawLemmas::writes_change, crate::proofs::LawLemmas::broken_reads, crate::proofs::LawLemmas::broken_writes))]
pub fn calls_are_of_blocks()
    ensures reads { ReadsAnswerBlocks }
    ensures writes { WritesChangeBlocks }
    ensures broken_reads { BrokenClientsReadNothing }
    ensures broken_writes { BrokenClientsWriteNothing }
{}

/// Whatever calls are made of a new client at a new disk, they have the answers of a plain list of
/// blocks, and the disk holds this list.
#[tactic(auto, using(crate::proofs::LawLemmas::disk_is_list))]
pub fn disk_is_list()
    ensures list { DiskIsList }
{}

/// A write changes no block before its data have ended: over each turn after which the disk still
/// waits for a packet its blocks stay.
#[tactic(auto, using(crate::proofs::GatheringLemmas::writes_are_gathered))]
pub fn writes_are_gathered()
    ensures law { WritesAreGathered }
{}
