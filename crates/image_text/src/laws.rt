//! Laws of the texts of images.

ghost use Rattle.code_model.specs.declared.image.Image.{Image};
ghost use Rattle.code_model.specs.ImageText.{image_text};
ghost use Rattle.code_model.specs.declared.limits.Limits.{Limits};
ghost use Rattle.code_model.specs.ImageFits.{IsFitting};
ghost use Rattle.code_model.specs.ImageLines.{IsImageText};

/// What is written of an image that fits is read as that image.
pub fn law_of_again()
    ensures { (limits : Limits) (image : Image) → IsFitting limits image → IsImageText limits (image_text image) image }
{}
