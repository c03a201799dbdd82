ghost use Rattle.std.specs.Prelude.{◌≡◌, ◌+◌, ◌<◌, ◌≤◌, ℕ, List, length, slice_set, slice_index};
ghost use Rattle.std.proofs.Props.{props};
ghost use Rattle.envy_base.specs.State.{IsBoard, ands, ones};
ghost use Rattle.envy_region.specs.Region.{region_state, Erased};

use envy_base::{Board, Off, PAGE_LENGTH, Page, Shape, Trouble, more};

/// A board whose flash, SRAM and counts of erases lie in memory of its caller's.
#[derive(Drop)]
pub struct BorrowedBoard<'a> {
    /// The sizes.
    pub shape: Shape,
    /// Rows of flash, 32 words to each; a segment's rows lie together.
    pub flash: &'a mut [Page],
    /// Words of SRAM.
    pub sram: &'a mut [u64],
    /// How many erases of each segment began.
    pub erases: &'a mut [u64],
    /// How many programs began since the board was made.
    pub begun: u64,
    ghost sound: { IsBoard (region_state shape flash.now sram.now erases.now begun) } by { Prim.hlevel props },
}

impl<'a> BorrowedBoard<'a> {
    /// A board over memory of the sizes that the shape asks for. It reads and writes none of it.
    pub fn over(
        shape: Shape,
        flash: &'a mut [Page],
        sram: &'a mut [u64],
        erases: &'a mut [u64],
    ) -> BorrowedBoard<'a>
        requires { IsBoard (region_state shape flash.old sram.old erases.old 0) }
        ensures { region_state result.shape result.flash.now result.sram.now result.erases.now result.begun
            ≡ region_state shape flash.old sram.old erases.old 0 }
    {
        BorrowedBoard {
            shape,
            flash,
            sram,
            erases,
            begun: 0,
        }
    }
}

impl<'a> Board for BorrowedBoard<'a> {
    ghost state = { λ b. region_state b.shape b.flash.now b.sram.now b.erases.now b.begun };

    ghost lawful = { λ b. b.sound };

    fn shape(&self) -> Shape {
        self.shape
    }

    fn powered(&self) -> bool {
        true
    }

    fn read(&self, row: u32, i: u32) -> Result<u64, Off> {
        Ok(self.flash[row as usize][i as usize])
    }

    fn get(&self, w: u32) -> Result<u64, Off> {
        Ok(self.sram[w as usize])
    }

    fn program(&mut self, row: u32, page: &Page) -> Result<(), Trouble> {
        let held = self.flash[row as usize];
        let both = anded(&held, page);
        self.begun = more(self.begun);
        self.flash[row as usize] = both;
        Ok(())
    }

    fn erase(&mut self, segment: u32) -> Result<(), Trouble> {
        let rows = self.shape.rows as usize;
        fill(&mut *self.flash, segment as usize * rows, rows);
        self.erases[segment as usize] = more(self.erases[segment as usize]);
        Ok(())
    }

    fn put(&mut self, w: u32, v: u64) -> Result<(), Off> {
        self.sram[w as usize] = v;
        Ok(())
    }
}

/// Makes so many rows all ones.
pub fn fill(flash: &mut [Page], first: usize, rows: usize)
    requires { first + rows ≤ length flash.old }
    ensures { Erased first (first + rows) flash.old flash.new }
{
    for row in first..first + rows {
        flash[row] = [u64::MAX; PAGE_LENGTH];
    }
}

/// The bitwise AND of a row and a page.
pub fn anded(row: &Page, page: &Page) -> Page
    ensures { result ≡ ands row.now page.now }
{
    let mut both = [0; PAGE_LENGTH];
    for i in 0..32usize {
        both[i] = row[i] & page[i];
    }
    both
}
