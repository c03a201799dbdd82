ghost use Rattle.std.specs.Prelude.{◌≡◌};
ghost use Rattle.envy_openings.specs.Reading.{feed_of};

use envy_io::{Failed, Source};

/// Bytes in memory as a source, which never fails.
#[derive(Drop)]
pub struct Cursor<'a> {
    /// The bytes that are left.
    pub left: &'a [u8],
}

impl<'a> Source for Cursor<'a> {
    ghost feed = { λ source. feed_of source.left.now };

    fn fill(&mut self, into: &mut [u8]) -> Result<usize, Failed> {
        let count = self.left.len().min(into.len());
        into[..count].copy_from_slice(&self.left[..count]);
        self.left = &self.left[count..];
        Ok(count)
    }
}
