// What follows from the definitions, in the words of their users. A law does nothing when it runs.
ghost use Rattle.std.specs.Prelude.{◌≡◌, ◌≤◌, ℕ, List, [], None, length};
ghost use Rattle.machine_names.specs.declared.names.TheConstants.{MOST_FILES};
ghost use Rattle.file_image.specs.Images.{AreImageFiles, ImageFile, IsBadImage, IsImage, image, image_parts};
ghost use Rattle.file_image.specs.Parts.{Part};

/// The image of files, within their limits and in the order of their names, is an image, with all their parts; that of no
/// files has twelve bytes. A text is the image of one list of parts at most, and then it is not bad.
pub fn images_are_images()
    ensures files { (files : List ImageFile) → AreImageFiles None files → length files ≤ MOST_FILES → IsImage (image files) (image_parts files) }
    ensures apart { (text : List ℕ) (ps : List Part) (qs : List Part) → IsImage text ps → IsImage text qs → ps ≡ qs }
    ensures whole { (text : List ℕ) (ps : List Part) (qs : List Part) → IsImage text ps → IsBadImage text qs → ⊥ }
    ensures none { length (image []) ≡ 12 }
{}
