//! Laws of images: functions that do nothing, and state laws in their contracts.
ghost use Rattle.ts_image.specs.FormatLaws.{AreBytes, IsFormat, IsExact};
ghost use Rattle.ts_image.specs.Formats.{Cursor, read_whole};
ghost use Rattle.ts_image.specs.declared.version.Version.{Version};
ghost use Rattle.ts_image.specs.Images.{ImageData, image};
ghost use Rattle.ts_image.specs.Pictures.{IsPictureOf, IsMadeOf};
ghost use Rattle.ts_core.specs.store.StoreData.{StoreData, StaysFor};
ghost use Rattle.ts_image.specs.ImageFaults.{AreUnambiguous};
ghost use Rattle.ts_image.specs.Reloading.{Reloads};
ghost use Rattle.ts_image.specs.SavedImages.{SavedImagesArePossible};
ghost use Rattle.ts_image.specs.WrittenImages.{WrittenImagesAreAcceptable};
ghost use Rattle.ts_image.specs.FirstVersion.{FirstImagesArePossible, FirstImagesFit, FirstImagesAreLoaded};

/// Proves that a store created from an image stands for each history that the saved store stood for.
pub fn reloads()
    ensures any { Reloads }
    ensures pictured { (k n : StoreData) (d : ImageData) → IsPictureOf k d → IsMadeOf d n → StaysFor k n }
{}

/// Proves that reading an image is exact.
pub fn images_are_exact()
    ensures unambiguous { AreUnambiguous }
    ensures format { (v : Version) → IsFormat (image v) }
    ensures exact { (v : Version) (p : Cursor) → AreBytes p.rest → IsExact (image v) p (read_whole (image v) p) }
{}

/// Proves that the image of a store that stands for a history has no contradiction.
pub fn saved_images_are_possible()
    ensures any { SavedImagesArePossible }
    ensures written { WrittenImagesAreAcceptable }
{}

/// Proves that each image of version 1, written of a store without an open run and without an added rule, is loaded, as
/// a store that stands for the same history.
pub fn images_of_version_1_are_loaded()
    ensures possible { FirstImagesArePossible }
    ensures fits { FirstImagesFit }
    ensures loaded { FirstImagesAreLoaded }
{}
