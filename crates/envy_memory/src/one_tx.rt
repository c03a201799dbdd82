ghost use Rattle.std.specs.Prelude.{◌≡◌, ◌↔◌, ◌⊎◌, ◌+◌, ◌*◌, ◌-◌, ◌^◌, ◌<◌, ◌≤◌, false, true, length, IsTrue, OnOk, MatchResult, [], replicate, None, Ok, Err};
ghost use Rattle.envy_array.specs.Array.{Array};
ghost use Rattle.envy_base.specs.Shape.{IsShape, version_of};
ghost use Rattle.envy_base.specs.declared.page.TheConstants.{PAGE_WORDS};
ghost use Rattle.envy_soundness.specs.Same.{Kept};
ghost use Rattle.envy_meaning.specs.Stands.{Stands};
ghost use Rattle.envy_soundness.specs.Words.{durable};
ghost use Rattle.envy_map.specs.Codes.{the_magic};
ghost use Rattle.envy_memory.specs.Calls.{fresh, lit, planned, pulled};
ghost use Rattle.envy_memory.specs.Faults.{IsNoRefusal, trouble_of};
ghost use Rattle.envy_memory.specs.Picture.{counts_of};
ghost use Rattle.envy_memory.specs.Restarts.{Restarts};
ghost use Rattle.envy_memory.specs.Sheets.{IsHeld, sheet_of};

use crate::faults::{BeginFault, EndFault, LoadFault, PutFault, ReviveFault};
use crate::memory::Memory;
use envy_array::{KeyPlace, Words};
use envy_base::{Bench, Board, Off, PAGE_WORDS, PlannedFault, Trouble};

/// A memory with one transaction at a time, which has the first slot.
pub struct OneTx<B: Board> {
    memory: Memory<B>,
    begun: bool,
    ghost few: { PAGE_WORDS * memory.chart.shape.pages < 2 ^ 32 },
    ghost held: { ∥ (IsTrue memory.chart.on → IsHeld memory.chart begun) ∥₁ },
}

impl<B: Board> OneTx<B> {
    /// A memory that has power and no open slot.
    pub fn new(memory: Memory<B>) -> OneTx<B>
        requires { (m : Array) × Stands memory.chart m × (m.slots ≡ replicate 64 None) }
        ensures same { result.memory ≡ memory }
        ensures shut { result.begun ≡ false }
    {
        memory.invariant_holds();
        OneTx {
            memory,
            begun: false,
        }
    }

    /// A memory whose first slot is open, and no other: its transaction goes on. Where power failed meanwhile, none is
    /// open.
    pub fn resume(memory: Memory<B>) -> OneTx<B>
        requires { ∥ (IsTrue memory.chart.on → IsHeld memory.chart true) ∥₁ }
        ensures same { result.memory ≡ memory }
        ensures begun { IsTrue result.begun }
    {
        memory.invariant_holds();
        OneTx {
            memory,
            begun: true,
        }
    }

    /// How many pages more the transaction may put words in.
    pub fn left(&self) -> u32
        ensures { length self.now.memory.owned.pairs + result ≡ self.now.memory.chart.shape.shadows }
    {
        self.memory.left()
    }

    /// Gives the memory back. Its board is formatted; where power is on and no transaction is open, it stands for the
    /// kept words with no slot open; where one is, the memory can be taken up again.
    pub fn into_memory(self) -> Memory<B>
        ensures same { result ≡ self.memory }
        ensures magic { result.chart.fields.magic ≡ the_magic }
        ensures version { result.chart.fields.version ≡ version_of result.chart.shape }
        ensures stands { IsTrue self.memory.chart.on → (sheet_of self.memory self.begun).started ≡ false
            → Stands result.chart (fresh result.chart.shape.shadows (durable result.chart)) }
        ensures resumes { IsTrue (sheet_of self.memory self.begun).started
            → ∥ (IsTrue result.chart.on → IsHeld result.chart true) ∥₁ }
    {
        self.memory.invariant_holds();
        let OneTx { memory, begun: _ } = self;
        memory
    }
}

impl<B: Bench> OneTx<B> {
    /// Asks for power, as `Memory::revive` does. The kept words stay, and no transaction is open.
    ///
    /// # Errors
    ///
    /// `Dead`: power doesn't return, and nothing changed. `Off`: power was cut again.
    pub fn wake(&mut self) -> Result<(), ReviveFault>
        requires { self.old.memory.chart.on ≡ false }
        ensures words { (sheet_of self.new.memory self.new.begun).kept
            ≡ (sheet_of self.old.memory self.old.begun).kept }
        ensures ok { OnOk result (IsTrue self.new.memory.chart.on × (self.new.begun ≡ false)) }
        ensures restarts { OnOk result (Restarts self.old.memory self.new.memory) }
        ensures counts { counts_of self.new.memory.parts ≡ counts_of self.old.memory.parts }
        ensures setup { (self.new.memory.limit ≡ self.old.memory.limit)
            × (self.new.memory.mark ≡ self.old.memory.mark) }
        ensures dead { (result ≡ Err ReviveFault.Dead) ↔ (self.old.memory.chart.lives ≡ 0) }
        ensures off { (result ≡ Err ReviveFault.Off)
            ↔ ((0 < self.old.memory.chart.lives) × (self.new.memory.chart.on ≡ false)) }
        ensures cut { (result ≡ Err ReviveFault.Off) → self.old.memory.chart.cuts < 2 ^ 64 - 1
            → self.old.memory.chart.cuts < self.new.memory.chart.cuts }
        ensures kept { MatchResult result (λ _. Kept (lit self.old.memory.chart) self.new.memory.chart)
            (λ e. ((e ≡ ReviveFault.Dead) × (self.new.memory ≡ self.old.memory))
            ⊎ (Kept (lit self.old.memory.chart) self.new.memory.chart × (self.new.memory.chart.on ≡ false))) }
    {
        self.memory.revive()?;
        self.begun = false;
        Ok(())
    }

    /// Plans a cut of power at the `k`-th device operation from now.
    pub fn arm_cut(&mut self, k: u32, g: u64)
        requires { 1 ≤ k }
        ensures memory { self.new.memory ≡ record self.old.memory { chart = planned (PlannedFault.Cut k g) self.old.memory.chart } }
        ensures begun { self.new.begun ≡ self.old.begun }
    {
        self.memory.arm_cut(k, g);
    }

    /// Plans a bad operation at the `k`-th flash operation from now.
    pub fn arm_bad(&mut self, k: u32, g: u64)
        requires { 1 ≤ k }
        ensures memory { self.new.memory ≡ record self.old.memory { chart = planned (PlannedFault.Bad k g) self.old.memory.chart } }
        ensures begun { self.new.begun ≡ self.old.begun }
    {
        self.memory.arm_bad(k, g);
    }

    /// Cuts power between two operations.
    pub fn cut_now(&mut self)
        requires { IsTrue self.old.memory.chart.on }
        ensures memory { self.new.memory ≡ record self.old.memory { chart = pulled self.old.memory.chart } }
        ensures begun { self.new.begun ≡ self.old.begun }
    {
        self.memory.cut_now();
    }
}

/// The answer of a put that wasn't refused.
fn trouble(answer: Result<(), PutFault>) -> Result<(), Trouble>
    requires { IsNoRefusal answer }
    ensures { result ≡ trouble_of answer }
{
    match answer {
        Ok(()) => Ok(()),
        Err(PutFault::Off) => Err(Trouble::Off),
        Err(PutFault::Bad) => Err(Trouble::Bad),
        Err(PutFault::Range | PutFault::Closed | PutFault::Held(_) | PutFault::Full) => {
            unreachable!()
        }
    }
}

impl<B: Board> Words for OneTx<B> {
    ghost use Rattle.envy_memory.specs.Sheets.{sheet_of};
    ghost use Rattle.envy_memory.specs.Lawful.{lawful_sheet};

    ghost sheet = { λ s. sheet_of s.memory s.begun };

    ghost lawful = { λ s. lawful_sheet s.memory s.begun s.few };

    fn size(&self) -> u32 {
        PAGE_WORDS * self.memory.board().shape().pages
    }

    fn room(&self) -> u32 {
        self.memory.board().shape().shadows
    }

    fn load(&mut self, a: u32) -> Result<u64, Off> {
        match self.memory.load(a) {
            Ok(word) => Ok(word),
            Err(LoadFault::Off) => Err(Off),
            Err(LoadFault::Range) => unreachable!(),
        }
    }

    fn load_run(&mut self, a: u32, into: &mut [u64]) -> Result<(), Off> {
        match self.memory.load_run(a, into) {
            Ok(()) => Ok(()),
            Err(LoadFault::Off) => Err(Off),
            Err(LoadFault::Range) => unreachable!(),
        }
    }

    fn search(&mut self, a: u32, n: u32, key: u64, low: u64, top: u64) -> Result<KeyPlace, Off> {
        match self.memory.search(a, n, key, low, top) {
            Ok(place) => Ok(place),
            Err(LoadFault::Off) => Err(Off),
            Err(LoadFault::Range) => unreachable!(),
        }
    }

    fn start(&mut self) -> Result<(), Off> {
        self.memory.invariant_holds();
        let begun = self.memory.begin();
        self.begun = true;
        match begun {
            Ok(_) => Ok(()),
            Err(BeginFault::Off) => Err(Off),
            Err(BeginFault::Busy) => unreachable!(),
        }
    }

    fn put(&mut self, a: u32, w: u64) -> Result<(), Trouble> {
        trouble(self.memory.put(0, a, w))
    }

    fn put_run(&mut self, a: u32, list: &[u64]) -> Result<(), Trouble> {
        let _left = self.memory.left();
        let (_, answer) = self.memory.put_run(0, a, list);
        trouble(answer)
    }

    fn finish(&mut self) -> Result<(), Off> {
        let ended = self.memory.commit(0);
        self.begun = false;
        match ended {
            Ok(()) => Ok(()),
            Err(EndFault::Off) => Err(Off),
            Err(EndFault::Closed) => unreachable!(),
        }
    }

    fn undo(&mut self) -> Result<(), Off> {
        let ended = self.memory.abort(0);
        self.begun = false;
        match ended {
            Ok(()) => Ok(()),
            Err(EndFault::Off) => Err(Off),
            Err(EndFault::Closed) => unreachable!(),
        }
    }
}
