// Images of boards.
ghost use Rattle.std.specs.Prelude.{◌≡◌};
ghost use Rattle.envy_calls.specs.Codes.{number_of};
ghost use Rattle.envy_calls.specs.declared.code.Code.{Code as OfCode};
ghost use Rattle.envy_openings.specs.Faultless.{AreFaultless};
ghost use Rattle.envy_openings.specs.Image.{DoesImageSize, DoesSave, ReadsShape};
ghost use Rattle.envy_places.specs.Places.{held};
ghost use denote.RawPtr.{InBlock};

use crate::handle::{Envy, give_back, lend};
use envy_calls::EnvySetup;
use envy_openings::{image_size, read_shape, save};
use std::alloc::Global;

/// How many bytes the image of a setup's board has.
#[unsafe(no_mangle)]
pub extern "C" fn envy_image_size(setup: &EnvySetup, size: &mut u64) -> u32
    ensures { (code : OfCode) × (result ≡ number_of code) × DoesImageSize setup.now size.old size.new code }
{
    image_size(setup, size).number()
}

/// Writes the shape that an image names into a setup.
#[unsafe(no_mangle)]
pub extern "C" fn envy_image_shape(image: &[u8], setup: &mut EnvySetup) -> u32
    ensures { (code : OfCode) × (result ≡ number_of code) × ReadsShape image.now setup.old setup.new code }
{
    read_shape(image, setup).number()
}

/// Writes the image of the memory's board over the first bytes.
#[unsafe(no_mangle)]
pub extern "C" fn envy_save(alloc: Global, m: &mut Envy, image: &mut [u8]) -> u32
    requires { InBlock m.old.at }
    ensures live { InBlock m.new.at }
    ensures faultless { AreFaultless m.old.place.now m.new.place.now }
    ensures same { m.new.place.now ≡ m.old.place.now }
    ensures saves { DoesSave (held m.old.place.now) image.old image.new result }
{
    let place = lend(m);
    let code = save(alloc, place, image);
    give_back(m, place);
    code
}
