ghost use Rattle.of_memory.specs.ImageRegion.{ImagesChangeByImagesAlone};
ghost use Rattle.of_memory.specs.Images.{LatestIsPushed};
ghost use Rattle.of_memory.specs.Laws.{WritesChangeTheirBytes, ReadsGiveTheBytes, SpreadsGiveTheBytes};
ghost use Rattle.of_memory.specs.PropertyRegion.{PropertiesChangeByPutsAlone};
ghost use Rattle.of_memory.specs.RangeLaws.{PartsAreGood, FaultsStay, RangesArePlaced, ScratchIsOpen, WritesJoin};
ghost use Rattle.of_memory.specs.SoundChanges.{ChangesStaySound};

/// A write to bytes that can be read changes exactly these bytes of the map from address to byte.
#[tactic(auto, using(crate::proofs::Bytes::writes_change_their_bytes))]
pub fn writes_change_their_bytes()
    ensures { WritesChangeTheirBytes }
{}

/// The bytes of a range that can be read are the map's.
#[tactic(auto, using(crate::proofs::Bytes::reads_give_the_bytes))]
pub fn reads_give_the_bytes()
    ensures { ReadsGiveTheBytes }
{}

/// Bytes of such a range that stand apart are the map's.
#[tactic(auto, using(crate::proofs::Bytes::spreads_give_the_bytes))]
pub fn spreads_give_the_bytes()
    ensures { SpreadsGiveTheBytes }
{}

/// A part of a range that can be read or written can be, and what can be written can be read.
#[tactic(auto, using(crate::proofs::Ranges::parts_are_good))]
pub fn parts_are_good()
    ensures { PartsAreGood }
{}

/// A write changes no later fault.
#[tactic(auto, using(crate::proofs::Ranges::faults_stay))]
pub fn faults_stay()
    ensures { FaultsStay }
{}

/// A range that can be read lies in one region and ends far below 2^32.
#[tactic(auto, using(crate::proofs::Ranges::ranges_are_placed))]
pub fn ranges_are_placed()
    ensures { RangesArePlaced }
{}

/// The scratch region can always be read and written.
#[tactic(auto, using(crate::proofs::Ranges::scratch_is_open))]
pub fn scratch_is_open()
    ensures { ScratchIsOpen }
{}

/// What was written reads back, and two writes side by side are one.
#[tactic(auto, using(crate::proofs::Joined::writes_join))]
pub fn writes_join()
    ensures { WritesJoin }
{}

/// An image that was pushed is the latest, at the address that was answered.
#[tactic(auto, using(crate::proofs::Latest::latest_is_pushed))]
pub fn latest_is_pushed()
    ensures { LatestIsPushed }
{}

/// The property region from its first property on changes by puts of properties alone: every other call leaves
/// what reads there as it was, and where the latest property ends.
#[tactic(auto, using(crate::proofs::PropertyRegion::properties_change_by_puts_alone))]
pub fn properties_change_by_puts_alone()
    ensures { PropertiesChangeByPutsAlone }
{}

/// A data space is sound at first: it has all its bytes, what is taken of each region lies there, and no two of its
/// blocks or images meet. Each change leaves a sound one sound.
#[tactic(auto, using(crate::proofs::SoundChanges::changes_stay_sound))]
pub fn changes_stay_sound()
    ensures { ChangesStaySound }
{}

/// The images that run, and the bytes of the image region, change by pushes and pops of images alone
/// (IEEE 1275-1994, 5.2.2).
pub fn images_change_by_images_alone()
    ensures { ImagesChangeByImagesAlone }
{}
