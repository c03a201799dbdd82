ghost use Rattle.envy_image.specs.Backwards.{BeginWithOneImage};

/// Bytes begin with the image of one board at most, whatever stands behind it. So an image gives back the
/// board that it was written from.
pub fn bytes_begin_with_one_image()
    ensures { BeginWithOneImage }
{}
