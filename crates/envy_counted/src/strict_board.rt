ghost use Rattle.std.specs.Prelude.{◌≡◌, ◌≤◌};
ghost use Rattle.envy_counted.specs.LooseBoard.{with_failures};
ghost use Rattle.envy_counted.specs.StrictBoard.{TellsNoMore};

use crate::{LooseBench, LooseBoard};
use envy_base::{Bench, Board, Off, Page, Shape, Trouble, more};

/// A board over any: its counts of failures are those of the answers that it gave.
#[derive(Drop)]
pub struct StrictBoard<B: LooseBoard> {
    board: B,
    cuts: u64,
    bads: u64,
    ghost cuts_told: { cuts ≤ (B.state board).cuts },
    ghost bads_told: { bads ≤ (B.state board).bads },
}

impl<B: LooseBoard> StrictBoard<B> {
    /// The board, with no failure told yet.
    pub fn over(board: B) -> StrictBoard<B>
        ensures { ⟦<StrictBoard<B> as Board>⟧.state result ≡ with_failures (B.state board) 0 0 }
    {
        StrictBoard {
            board,
            cuts: 0,
            bads: 0,
        }
    }

    /// How many failures of power were told, at most 2^64 - 1.
    pub fn cuts(&self) -> u64
        ensures { result ≡ (⟦<StrictBoard<B> as Board>⟧.state self.now).cuts }
    {
        self.cuts
    }

    /// How many bad operations were told, at most 2^64 - 1.
    pub fn bads(&self) -> u64
        ensures { result ≡ (⟦<StrictBoard<B> as Board>⟧.state self.now).bads }
    {
        self.bads
    }

    /// The board itself, which counted each failure that was told, and maybe more.
    pub fn board(&self) -> &B
        ensures same { ⟦<StrictBoard<B> as Board>⟧.state self.now ≡ with_failures (B.state result.now)
            (⟦<StrictBoard<B> as Board>⟧.state self.now).cuts (⟦<StrictBoard<B> as Board>⟧.state self.now).bads }
        ensures fewer { TellsNoMore (⟦<StrictBoard<B> as Board>⟧.state self.now) (B.state result.now) }
    {
        &self.board
    }
}

impl<B: LooseBoard> Board for StrictBoard<B> {
    ghost state = { λ b. with_failures (B.state b.board) b.cuts b.bads };

    ghost lawful = { λ b. let law = B.lawful b.board in
        record { shape = law.shape; sram = law.sram; rows = law.rows; pages = law.pages; words = law.words; erases = law.erases } };

    fn shape(&self) -> Shape {
        self.board.shape()
    }

    fn powered(&self) -> bool {
        self.board.powered()
    }

    fn read(&self, row: u32, i: u32) -> Result<u64, Off> {
        self.board.read(row, i)
    }

    fn get(&self, w: u32) -> Result<u64, Off> {
        self.board.get(w)
    }

    fn program(&mut self, row: u32, page: &Page) -> Result<(), Trouble> {
        let on = self.board.powered();
        let answer = self.board.program(row, page);
        if let Err(trouble) = answer {
            match trouble {
                Trouble::Off => {
                    if on {
                        self.cuts = more(self.cuts);
                    }
                }
                Trouble::Bad => self.bads = more(self.bads),
            }
        }
        answer
    }

    fn erase(&mut self, segment: u32) -> Result<(), Trouble> {
        let on = self.board.powered();
        let answer = self.board.erase(segment);
        if let Err(trouble) = answer {
            match trouble {
                Trouble::Off => {
                    if on {
                        self.cuts = more(self.cuts);
                    }
                }
                Trouble::Bad => self.bads = more(self.bads),
            }
        }
        answer
    }

    fn put(&mut self, w: u32, v: u64) -> Result<(), Off> {
        let on = self.board.powered();
        let answer = self.board.put(w, v);
        if let Err(Off) = answer {
            if on {
                self.cuts = more(self.cuts);
            }
        }
        answer
    }
}

impl<B: LooseBench> Bench for StrictBoard<B> {
    fn arm_cut(&mut self, k: u32, g: u64) {
        self.board.arm_cut(k, g);
    }

    fn arm_bad(&mut self, k: u32, g: u64) {
        self.board.arm_bad(k, g);
    }

    fn cut_now(&mut self) {
        self.board.cut_now();
        self.cuts = more(self.cuts);
    }

    fn power_on(&mut self) -> bool {
        self.board.power_on()
    }

    fn lives(&self) -> u32 {
        self.board.lives()
    }
}
