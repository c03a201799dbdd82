ghost use Rattle.std.specs.Prelude.{◌≡◌, ◌+◌, ◌<◌, ◌≤◌, ℕ, List, [], IfOk, MatchResult, OnErr, length, slice_set, slice_index, slice_index_or};
ghost use Rattle.std.proofs.Props.{props};
ghost use Rattle.envy_base.specs.Counting.{up};
ghost use Rattle.envy_base.specs.Shape.{IsShape};
ghost use Rattle.envy_bank.specs.Lanes.{row_from};
ghost use Rattle.envy_base.specs.State.{AreWords, IsBoard, Puts, Programs, Erases, ands};
ghost use Rattle.envy_part.specs.Orders.{Adds};
ghost use Rattle.envy_part.specs.Orders.Order.{Programs as ToProgram, Erases as ToErase, Barrier as ToOrder};
ghost use Rattle.envy_part.specs.Part.{ArePages, MissesOnes, MissesPage, part_state};

use crate::rows::{anded, word, words};
use crate::{PartFault, Port, orders};
use envy_base::{Board, Off, Page, Shape, Trouble, more};
use std::alloc::Global;

/// A board whose flash is a part that is mapped into memory, and whose SRAM lies there too.
#[derive(Drop)]
pub struct PartBoard<'a, P: Port> {
    /// The sizes.
    pub shape: Shape,
    /// The part, as rows of 256 bytes; a segment's rows lie together.
    pub flash: &'a mut [[u8; 256]],
    /// Words of SRAM.
    pub sram: &'a mut [u64],
    /// How many erases of each segment began since the board was made.
    pub erases: Vec<u64>,
    /// The port that orders go to.
    pub port: P,
    /// How many programs began since the board was made.
    pub begun: u64,
    /// How many orders weren't carried out since then.
    pub bads: u64,
    ghost sound: { IsBoard (part_state shape flash.now sram.now erases.items begun bads) } by { Prim.hlevel props },
}

// Counts the erase of a segment.
fn count_erase(erases: &mut Vec<u64>, segment: usize)
    requires { segment < length erases.old.items }
    ensures { erases.new.items ≡ slice_set erases.old.items segment (up (slice_index erases.old.items segment)) }
{
    let count = &mut erases[segment];
    *count = more(*count);
}

// One store of 64 bits to SRAM, and the barrier after it.
fn put_word<P: Port>(port: &mut P, sram: &mut [u64], w: usize, v: u64)
    requires { w < length sram.old }
    ensures stored { sram.new ≡ slice_set sram.old w v }
    ensures ordered { Adds (ToOrder v) (P.orders port.old) (P.orders port.new) }
{
    sram[w] = v;
    port.barrier(&sram[w]);
}

impl<'a, P: Port + Drop> PartBoard<'a, P> {
    ghost use Rattle.envy_part.specs.Making.{Misfits, new_part};

    /// A board over a part and SRAM, whatever they hold. It reads and writes none of it, and orders nothing.
    ///
    /// # Errors
    ///
    /// `FlashSize` and `SramSize` where the regions aren't of the shape's sizes, and `NoMemory`.
    pub fn over(
        alloc: Global,
        shape: Shape,
        flash: &'a mut [[u8; 256]],
        sram: &'a mut [u64],
        port: P,
    ) -> Result<PartBoard<'a, P>, PartFault>
        requires shape { IsShape shape }
        requires pages { ArePages flash.old }
        requires words { AreWords sram.old }
        ensures makes { MatchResult result
            (λ board. part_state board.shape board.flash.now board.sram.now board.erases.items board.begun board.bads
            ≡ new_part shape flash.old sram.old)
            (Misfits shape flash.old sram.old) }
        ensures ordered { IfOk result (λ board. P.orders board.port ≡ P.orders port) }
    {
        if flash.len() != (shape.segments * shape.rows) as usize {
            return Err(PartFault::FlashSize);
        }
        if sram.len() != envy_map::words(&shape) as usize {
            return Err(PartFault::SramSize);
        }
        let Ok(erases) = vec![in alloc; 0; shape.segments as usize] else {
            return Err(PartFault::NoMemory);
        };
        Ok(PartBoard {
            shape,
            flash,
            sram,
            erases,
            port,
            begun: 0,
            bads: 0,
        })
    }
}

impl<'a, P: Port> Board for PartBoard<'a, P> {
    ghost state = { λ b. part_state b.shape b.flash.now b.sram.now b.erases.items b.begun b.bads };

    ghost lawful = { λ b. b.sound };

    fn shape(&self) -> Shape {
        self.shape
    }

    fn powered(&self) -> bool {
        true
    }

    /// Reads the map; no order goes out.
    fn read(&self, row: u32, i: u32) -> Result<u64, Off> {
        let flash = &*self.flash;
        Ok(word(&flash[row as usize], i as usize))
    }

    fn get(&self, w: u32) -> Result<u64, Off> {
        Ok(self.sram[w as usize])
    }

    /// Orders the AND of the row and the page, once, and looks at what the row is afterwards.
    ///
    /// # Errors
    ///
    /// `Bad` where the row isn't that AND.
    fn program(&mut self, row: u32, page: &Page) -> Result<(), Trouble>
        requires { row < length (⟦<PartBoard<'a, P> as Board>⟧.state self.old).flash }
        ensures does { Programs (⟦<PartBoard<'a, P> as Board>⟧.state self.old) row page.now result
            (⟦<PartBoard<'a, P> as Board>⟧.state self.new) }
        ensures bad { OnErr result (MissesPage self.old.flash.now row page.now self.new.flash.now) }
        ensures ordered { Adds (ToProgram (ands (row_from (slice_index_or self.old.flash.now row [])) page.now))
            (P.orders self.old.port) (P.orders self.new.port) }
    {
        let held = self.flash[row as usize];
        let both = anded(&words(&held), page);
        let begun = more(self.begun);
        let flash = &mut *self.flash;
        let done = orders::program(&mut self.port, &mut flash[row as usize], &both);
        self.begun = begun;
        if !done {
            self.bads = more(self.bads);
            return Err(Trouble::Bad);
        }
        Ok(())
    }

    /// Orders that the segment become all ones, once, and looks at each of its rows afterwards.
    ///
    /// # Errors
    ///
    /// `Bad` where a row of the segment isn't all ones.
    fn erase(&mut self, segment: u32) -> Result<(), Trouble>
        requires { segment < (⟦<PartBoard<'a, P> as Board>⟧.state self.old).shape.segments }
        ensures does { Erases (⟦<PartBoard<'a, P> as Board>⟧.state self.old) segment result
            (⟦<PartBoard<'a, P> as Board>⟧.state self.new) }
        ensures bad { OnErr result (MissesOnes self.new.shape.rows segment self.new.flash.now) }
        ensures ordered { Adds (ToErase self.old.shape.rows) (P.orders self.old.port) (P.orders self.new.port) }
    {
        let rows = self.shape.rows as usize;
        let first = segment as usize * rows;
        let done = orders::erase(&mut self.port, &mut self.flash[first..first + rows]);
        count_erase(&mut self.erases, segment as usize);
        if !done {
            self.bads = more(self.bads);
            return Err(Trouble::Bad);
        }
        Ok(())
    }

    /// One store of 64 bits to an aligned address: where power fails, the word must be the old one or the new one.
    /// A barrier of the port's follows, so that no later store is there before this one.
    fn put(&mut self, w: u32, v: u64) -> Result<(), Off>
        requires { w < length (⟦<PartBoard<'a, P> as Board>⟧.state self.old).sram }
        ensures does { Puts (⟦<PartBoard<'a, P> as Board>⟧.state self.old) w v result
            (⟦<PartBoard<'a, P> as Board>⟧.state self.new) }
        ensures ordered { Adds (ToOrder v) (P.orders self.old.port) (P.orders self.new.port) }
    {
        let sram = &mut *self.sram;
        put_word(&mut self.port, sram, w as usize, v);
        Ok(())
    }
}
