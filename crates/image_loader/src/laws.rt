//! What holds of the spelling of images. These functions do nothing; their contracts are the laws.
ghost use Rattle.std.specs.Prelude.{◌≡◌, ◌<◌, ◌≤◌, ◌⊎◌, ◌∷◌, ◌++◌, List, ℕ, length, take};
ghost use Rattle.std.specs.Prelude.{Result, Ok, Err};
ghost use Rattle.linked_starts.specs.Started.{StartSeen};
ghost use Rattle.image_loader.specs.declared.fault.ImageFault.{ImageFault};
ghost use Rattle.image_loader.specs.declared.fault.ImageFault.TheVariants.{Short, Trailing};
ghost use Rattle.image_loader.specs.declared.fault.ImageFault.TheVariants.{NoMemory};
ghost use Rattle.image_loader.specs.declared.reading.Image.{Image};
ghost use Rattle.image_loader.specs.Image.{IsImage, image_bytes, SpellsImage};
ghost use Rattle.image_loader.specs.Reading.{image_of};
ghost use Rattle.image_loader.specs.Answer.{LinksRead, LoadsImage};

/// Each image has one spelling, of no other, and none begins another.
pub fn one_spelling()
    ensures { (i j : Image) (a b x y : List ℕ) →
        SpellsImage a i → SpellsImage b j → a ++ x ≡ b ++ y → (i ≡ j) × (a ≡ b) × (x ≡ y) }
{}

/// Reading an image's spelling gives that image.
pub fn spelling_is_read()
    ensures { (i : Image) → IsImage i → image_of (image_bytes i) ≡ Ok i }
{}

/// A written image is loaded as `link` answers of it, unless memory is refused.
pub fn what_was_written_is_linked()
    ensures { (i : Image) (answer : Result StartSeen ImageFault) → IsImage i →
        LoadsImage (image_bytes i) answer → LinksRead (Ok i) answer ⊎ (answer ≡ Err NoMemory) }
{}

/// Bytes after an image's spelling are `Trailing`, at the first of them.
pub fn no_more_is_read()
    ensures { (i : Image) (byte : ℕ) (more : List ℕ) → IsImage i →
        image_of (image_bytes i ++ byte ∷ more) ≡ Err (Trailing (length (image_bytes i))) }
{}

/// An image's spelling, cut anywhere, is `Short`, at a field that begins at the cut or before.
pub fn what_is_cut_is_short()
    ensures { (i : Image) (n : ℕ) → IsImage i → n < length (image_bytes i) →
        (at : ℕ) × (at ≤ n) × (image_of (take n (image_bytes i)) ≡ Err (Short at)) }
{}
