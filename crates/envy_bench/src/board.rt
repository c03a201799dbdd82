ghost use Rattle.std.specs.Prelude.{◌≡◌, ◌<◌, ◌≤◌, IfOk, length, slice_index};
ghost use Rattle.std.proofs.Props.{props};
ghost use Rattle.envy_base.specs.Counting.{up};
ghost use Rattle.envy_base.specs.Shape.{IsShape};
ghost use Rattle.envy_base.specs.State.{IsBoard};
ghost use Rattle.envy_bench.specs.Parts.{state_of};

use crate::flash::Flash;
use crate::plans::Plans;
use crate::{Event, Sram, Supply};
use envy_base::{Bench, Board, NoMemory, Off, Page, PlannedFault, Shape, Trouble, more};
use envy_map::words;
use std::alloc::Global;

/// A board in memory: four banks of flash chips, SRAM, and a supply of power that a test may make
/// fail. A cut `put` keeps the old word where the plan's `g` is even, and has the new one where `g`
/// is odd. A cut or bad `program` leaves in its row, and a cut or bad `erase` in the rows of its
/// segment in order, the words that `crate::Torn` draws from `g`.
#[derive(Drop)]
pub struct MemBoard {
    shape: Shape,
    flash: Flash,
    sram: Sram,
    supply: Supply,
    begun: u64,
    pulled: u64,
    plans: Plans,
    given: u32,
    ghost sound: { IsBoard (state_of shape flash sram supply begun pulled plans given) } by { Prim.hlevel props },
    ghost same_rows: { flash.rows ≡ shape.rows },
}

impl MemBoard {
    ghost use Rattle.std.specs.Prelude.{IsTrue};
    ghost use Rattle.envy_base.specs.State.{Puts, Programs};
    ghost use Rattle.envy_bench.specs.Power.{fresh, put_event, flash_event};
    ghost use Rattle.envy_bench.specs.Parts.{new_state};
    ghost use Rattle.envy_bench.specs.Board.{board_state, board_power};
    ghost use Rattle.envy_bench.specs.Events.{PutMeets, ProgramMeets, after_put, after_flash};

    /// A new board, whose power can return `lives` times. All flash is ones, SRAM is zeros, power is
    /// on, and nothing is planned.
    pub fn new(alloc: Global, shape: &Shape, lives: u32) -> Result<MemBoard, NoMemory>
        requires { IsShape shape.now }
        ensures state { IfOk result (λ board. board_state board ≡ new_state shape.now lives) }
        ensures power { IfOk result (λ board. board_power board ≡ fresh lives) }
    {
        Ok(MemBoard {
            shape: *shape,
            flash: Flash::new(alloc, shape.segments, shape.rows)?,
            sram: Sram::new(alloc, words(shape))?,
            supply: Supply::new(lives),
            begun: 0,
            pulled: 0,
            plans: Plans {
                made: 0,
                last: None,
            },
            given: lives,
        })
    }

    /// How many times power has failed, at most 2^64 - 1.
    pub fn cuts(&self) -> u64
        ensures { result ≡ (board_state self.now).cuts }
    {
        self.supply.cuts()
    }

    /// How many bad operations there were, at most 2^64 - 1.
    pub fn bads(&self) -> u64
        ensures { result ≡ (board_state self.now).bads }
    {
        self.supply.bads()
    }

    /// A word of SRAM, with power on or off.
    pub fn peek(&self, w: u32) -> u64
        requires { w < length (board_state self.now).sram }
        ensures { result ≡ slice_index (board_state self.now).sram w }
    {
        self.sram.get(w)
    }

    /// Writes a word of SRAM where power is off or a cut is planned.
    #[cold]
    #[tactic(auto, unfolding(envy_base::specs::Counting::up, crate::specs::Power::up))]
    fn put_planned(&mut self, w: u32, v: u64) -> Result<(), Off>
        requires { w < length (board_state self.old).sram }
        ensures state { Puts (board_state self.old) w v result (board_state self.new) }
        ensures exact { IsTrue (board_state self.old).on
            → PutMeets (put_event (board_power self.old)) (board_state self.old) w v
            result (board_state self.new) }
        ensures power { board_power self.new ≡ after_put (board_power self.old) }
    {
        if !self.supply.powered() {
            return Err(Off);
        }
        match self.supply.put_event() {
            Event::Pass => {
                self.sram.put(w, v);
                Ok(())
            }
            Event::Cut(g) => {
                if g % 2 == 1 {
                    self.sram.put(w, v);
                }
                Err(Off)
            }
            Event::Bad(_) => unreachable!(),
        }
    }

    /// Programs a row where power is off or something is planned.
    #[cold]
    #[inline(never)]
    #[tactic(auto, unfolding(envy_base::specs::Counting::up, crate::specs::Power::up))]
    fn program_planned(&mut self, row: u32, page: &Page) -> Result<(), Trouble>
        requires { row < length (board_state self.old).flash }
        ensures state { Programs (board_state self.old) row page.now result (board_state self.new) }
        ensures exact { IsTrue (board_state self.old).on
            → ProgramMeets (flash_event (board_power self.old)) (board_state self.old) row page.now
            result (board_state self.new) }
        ensures power { board_power self.new ≡ after_flash (board_power self.old) }
    {
        if !self.supply.powered() {
            return Err(Trouble::Off);
        }
        self.begun = more(self.begun);
        match self.supply.flash_event() {
            Event::Pass => {
                self.flash.program(row, page);
                Ok(())
            }
            Event::Cut(g) => {
                self.flash.tear_row(row, g);
                Err(Trouble::Off)
            }
            Event::Bad(g) => {
                self.flash.tear_row(row, g);
                Err(Trouble::Bad)
            }
        }
    }
}

impl Board for MemBoard {
    ghost use Rattle.std.specs.Prelude.{IsTrue};
    ghost use Rattle.envy_base.specs.State.{Puts, Programs, Erases};
    ghost use Rattle.envy_bench.specs.Power.{put_event, flash_event};
    ghost use Rattle.envy_bench.specs.Board.{board_state, board_power};
    ghost use Rattle.envy_bench.specs.Events.{PutMeets, ProgramMeets, EraseMeets, after_put, after_flash};

    ghost state = { board_state };

    ghost lawful = { λ board. board.sound };

    fn shape(&self) -> Shape {
        self.shape
    }

    fn powered(&self) -> bool {
        self.supply.powered()
    }

    fn read(&self, row: u32, i: u32) -> Result<u64, Off> {
        if !self.supply.powered() {
            return Err(Off);
        }
        Ok(self.flash.read(row, i))
    }

    fn get(&self, w: u32) -> Result<u64, Off> {
        if !self.supply.powered() {
            return Err(Off);
        }
        Ok(self.sram.get(w))
    }

    #[tactic(auto, unfolding(envy_base::specs::Counting::up, crate::specs::Power::up))]
    fn program(&mut self, row: u32, page: &Page) -> Result<(), Trouble>
        requires { row < length (board_state self.old).flash }
        ensures state { Programs (board_state self.old) row page.now result (board_state self.new) }
        ensures exact { IsTrue (board_state self.old).on
            → ProgramMeets (flash_event (board_power self.old)) (board_state self.old) row page.now
            result (board_state self.new) }
        ensures power { board_power self.new ≡ after_flash (board_power self.old) }
    {
        if self.supply.is_quiet() {
            self.begun = more(self.begun);
            self.flash.program(row, page);
            return Ok(());
        }
        self.program_planned(row, page)
    }

    #[tactic(auto, unfolding(envy_base::specs::Counting::up, crate::specs::Power::up))]
    fn erase(&mut self, segment: u32) -> Result<(), Trouble>
        requires { segment < (board_state self.old).shape.segments }
        ensures state { Erases (board_state self.old) segment result (board_state self.new) }
        ensures exact { IsTrue (board_state self.old).on
            → EraseMeets (flash_event (board_power self.old)) (board_state self.old) segment
            result (board_state self.new) }
        ensures power { board_power self.new ≡ after_flash (board_power self.old) }
    {
        if !self.supply.powered() {
            return Err(Trouble::Off);
        }
        let event = self.supply.flash_event();
        self.flash.erase(segment);
        match event {
            Event::Pass => Ok(()),
            Event::Cut(g) => {
                self.flash.tear_segment(segment, g);
                Err(Trouble::Off)
            }
            Event::Bad(g) => {
                self.flash.tear_segment(segment, g);
                Err(Trouble::Bad)
            }
        }
    }

    #[tactic(auto, unfolding(envy_base::specs::Counting::up, crate::specs::Power::up))]
    fn put(&mut self, w: u32, v: u64) -> Result<(), Off>
        requires { w < length (board_state self.old).sram }
        ensures state { Puts (board_state self.old) w v result (board_state self.new) }
        ensures exact { IsTrue (board_state self.old).on
            → PutMeets (put_event (board_power self.old)) (board_state self.old) w v
            result (board_state self.new) }
        ensures power { board_power self.new ≡ after_put (board_power self.old) }
    {
        if self.supply.is_calm() {
            self.sram.put(w, v);
            return Ok(());
        }
        self.put_planned(w, v)
    }
}

impl Bench for MemBoard {
    ghost use Rattle.std.specs.Prelude.{◌↔◌, ◌<◌, IsTrue, false, if◌then◌else◌};
    ghost use Rattle.envy_base.specs.State.{pull, lit, planned};
    ghost use Rattle.envy_bench.specs.Power.{with_cut, with_bad, cut as power_cut, lit as power_lit};
    ghost use Rattle.envy_bench.specs.Board.{board_state, board_power};

    fn arm_cut(&mut self, k: u32, g: u64)
        requires { 1 ≤ k }
        ensures state { board_state self.new ≡ planned (PlannedFault.Cut k g) (board_state self.old) }
        ensures power { board_power self.new ≡ with_cut k g (board_power self.old) }
    {
        self.supply.arm_cut(k, g);
        self.plans = Plans {
            made: more(self.plans.made),
            last: Some(PlannedFault::Cut { k, g }),
        };
    }

    fn arm_bad(&mut self, k: u32, g: u64)
        requires { 1 ≤ k }
        ensures state { board_state self.new ≡ planned (PlannedFault.Bad k g) (board_state self.old) }
        ensures power { board_power self.new ≡ with_bad k g (board_power self.old) }
    {
        self.supply.arm_bad(k, g);
        self.plans = Plans {
            made: more(self.plans.made),
            last: Some(PlannedFault::Bad { k, g }),
        };
    }

    #[tactic(auto, unfolding(envy_base::specs::Counting::up, crate::specs::Power::up))]
    fn cut_now(&mut self)
        requires { IsTrue (board_state self.old).on }
        ensures state { board_state self.new ≡ pull (board_state self.old) }
        ensures power { board_power self.new ≡ power_cut (board_power self.old) }
    {
        self.supply.cut_now();
        self.pulled = more(self.pulled);
    }

    fn power_on(&mut self) -> bool
        requires { (board_state self.old).on ≡ false }
        ensures answer { IsTrue result ↔ (0 < (board_state self.old).lives) }
        ensures state { board_state self.new
            ≡ (if result then lit (board_state self.old) else board_state self.old) }
        ensures power { board_power self.new
            ≡ (if result then power_lit (board_power self.old) else board_power self.old) }
    {
        self.supply.power_on()
    }

    fn lives(&self) -> u32 {
        self.supply.lives()
    }
}
