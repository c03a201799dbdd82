ghost use Rattle.std.specs.Prelude.{◌≡◌, MatchResult};
ghost use Rattle.envy_base.specs.Shape.{IsShape};
ghost use Rattle.envy_part.specs.Placing.{ArePlaced, AreApart, Misplaces, Mingles};

use envy_base::Shape;

const ROW_BYTES: u64 = 256;

const WORD_BYTES: u64 = 8;

/// Where a part's map and the SRAM lie: addresses and lengths in bytes.
#[repr(C)]
#[derive(Clone, Copy, Debug, PartialEq, Eq)]
pub struct Places {
    /// The address of the map.
    pub flash: u64,
    /// The bytes of the part.
    pub flash_bytes: u64,
    /// The address of the SRAM.
    pub sram: u64,
    /// The bytes of SRAM.
    pub sram_bytes: u64,
}

/// Why no board stands in such places.
#[derive(Clone, Copy, Debug, PartialEq, Eq)]
pub enum PlaceFault {
    /// The map begins at 0, or at no multiple of 256.
    FlashAddress,
    /// The SRAM begins at 0, or at no multiple of 8.
    SramAddress,
    /// The part isn't of the size that the shape asks for.
    FlashSize,
    /// The SRAM isn't of the size that the shape asks for.
    SramSize,
    /// A region reaches past the last address.
    Past,
    /// The regions overlap.
    Overlap,
}

impl Places {
    /// Whether a board of this shape may stand here. It takes no port, so that nothing can be ordered.
    ///
    /// # Errors
    ///
    /// A rule that the places break.
    pub fn check(&self, shape: &Shape) -> Result<(), PlaceFault>
        requires { IsShape shape.now }
        ensures { MatchResult result (λ _. ArePlaced shape.now self.now) (Misplaces shape.now self.now) }
    {
        let places = *self;
        if places.flash == 0 || places.flash % ROW_BYTES != 0 {
            return Err(PlaceFault::FlashAddress);
        }
        if places.sram == 0 || places.sram % WORD_BYTES != 0 {
            return Err(PlaceFault::SramAddress);
        }
        if places.flash_bytes != ROW_BYTES * (shape.segments * shape.rows) as u64 {
            return Err(PlaceFault::FlashSize);
        }
        if places.sram_bytes != WORD_BYTES * envy_map::words(shape) as u64 {
            return Err(PlaceFault::SramSize);
        }
        places.check_apart()
    }

    // Whether the regions lie within the addresses and apart.
    fn check_apart(&self) -> Result<(), PlaceFault>
        ensures { MatchResult result (λ _. AreApart self.now) (Mingles self.now) }
    {
        let places = *self;
        if places.flash_bytes > u64::MAX - places.flash
            || places.sram_bytes > u64::MAX - places.sram
        {
            return Err(PlaceFault::Past);
        }
        if places.flash + places.flash_bytes > places.sram
            && places.sram + places.sram_bytes > places.flash
        {
            return Err(PlaceFault::Overlap);
        }
        Ok(())
    }
}
