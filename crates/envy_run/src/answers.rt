ghost use Rattle.std.specs.Prelude.{◌≡◌, ◌≢◌, ◌↔◌, List, [], ◌∷◌, false, IsTrue, IfOk, Ok, Err};
ghost use Rattle.envy_array.specs.Array.{Array};
ghost use Rattle.envy_meaning.specs.Stands.{Stands};
ghost use Rattle.envy_memory.specs.Picture.{counts_of};
ghost use Rattle.envy_run.specs.Answers.{Answered, AnswersTo, AnswerLicence, line_beside, line_of_plan};
ghost use Rattle.envy_run.specs.Below.{WorksOf, FollowsRules};
ghost use Rattle.envy_run.specs.Hits.{MayTell};
ghost use Rattle.envy_run.specs.Tells.{CanTell, Notes};
ghost use Rattle.envy_run.specs.Turns.{TraceTurn};
ghost use Rattle.envy_trace.specs.Spelling.{IsLine};
ghost use Rattle.envy_trace.specs.declared.line.Line.TheVariants.{Load, Look, Store, Begin, Put, Commit, Abort, Tick, Stat};

use envy_base::{Bench, Board, PlannedFault, Trouble};
use envy_memory::{BeginFault, EndFault, LoadFault, Memory, PutFault, StoreFault};
use envy_trace::{Line, Reply};

fn load<B: Board>(memory: &mut Memory<B>, address: u32) -> Reply
    requires { IsTrue memory.old.chart.on }
    ensures step { (m : Array) → Stands memory.old.chart m → Answered m (Load address) result memory.new.chart }
    ensures lost { (result ≡ Reply.Lost) ↔ (memory.new.chart.on ≡ false) }
    ensures licence { AnswerLicence (Load address) result memory.old.chart memory.new.chart }
    ensures notes { Notes (Load address) (result ∷ []) memory.old memory.new }
    ensures works { WorksOf (Load address) memory.old.chart memory.new.chart }
    ensures rules { FollowsRules (Load address) result memory.old memory.new }
{
    match memory.load(address) {
        Ok(word) => Reply::Word(word),
        Err(LoadFault::Range) => Reply::Range,
        Err(LoadFault::Off) => unreachable!(),
    }
}

fn look<B: Board>(memory: &Memory<B>, address: u32) -> Reply
    requires { IsTrue memory.now.chart.on }
    ensures step { (m : Array) → Stands memory.now.chart m → Answered m (Look address) result memory.now.chart }
    ensures lost { (result ≡ Reply.Lost) ↔ (memory.now.chart.on ≡ false) }
    ensures licence { AnswerLicence (Look address) result memory.now.chart memory.now.chart }
    ensures notes { Notes (Look address) (result ∷ []) memory.now memory.now }
{
    match memory.look(address) {
        Ok(word) => Reply::Word(word),
        Err(LoadFault::Range) => Reply::Range,
        Err(LoadFault::Off) => unreachable!(),
    }
}

fn store<B: Board>(memory: &mut Memory<B>, address: u32, word: u64) -> Reply
    requires { IsTrue memory.old.chart.on }
    ensures step { (m : Array) → Stands memory.old.chart m → Answered m (Store address word) result memory.new.chart }
    ensures lost { (result ≡ Reply.Lost) ↔ (memory.new.chart.on ≡ false) }
    ensures licence { AnswerLicence (Store address word) result memory.old.chart memory.new.chart }
    ensures notes { Notes (Store address word) (result ∷ []) memory.old memory.new }
    ensures works { WorksOf (Store address word) memory.old.chart memory.new.chart }
    ensures rules { FollowsRules (Store address word) result memory.old memory.new }
{
    match memory.store(address, word) {
        Ok(()) => Reply::Done,
        Err(StoreFault::Range) => Reply::Range,
        Err(StoreFault::Held(slot)) => Reply::Held(slot),
        Err(StoreFault::Bad) => Reply::Fault,
        Err(StoreFault::Off) => Reply::Lost,
    }
}

fn begin<B: Board>(memory: &mut Memory<B>) -> Reply
    requires { IsTrue memory.old.chart.on }
    ensures step { (m : Array) → Stands memory.old.chart m → Answered m Begin result memory.new.chart }
    ensures lost { (result ≡ Reply.Lost) ↔ (memory.new.chart.on ≡ false) }
    ensures licence { AnswerLicence Begin result memory.old.chart memory.new.chart }
    ensures notes { Notes Begin (result ∷ []) memory.old memory.new }
    ensures works { WorksOf Begin memory.old.chart memory.new.chart }
    ensures rules { FollowsRules Begin result memory.old memory.new }
{
    match memory.begin() {
        Ok(slot) => Reply::Started(slot),
        Err(BeginFault::Busy) => Reply::Busy,
        Err(BeginFault::Off) => Reply::Lost,
    }
}

fn put<B: Board>(memory: &mut Memory<B>, slot: u8, address: u32, word: u64) -> Reply
    requires { IsTrue memory.old.chart.on }
    ensures step { (m : Array) → Stands memory.old.chart m
        → Answered m (Put slot address word) result memory.new.chart }
    ensures lost { (result ≡ Reply.Lost) ↔ (memory.new.chart.on ≡ false) }
    ensures licence { AnswerLicence (Put slot address word) result memory.old.chart memory.new.chart }
    ensures notes { Notes (Put slot address word) (result ∷ []) memory.old memory.new }
    ensures works { WorksOf (Put slot address word) memory.old.chart memory.new.chart }
    ensures rules { FollowsRules (Put slot address word) result memory.old memory.new }
{
    match memory.put(slot, address, word) {
        Ok(()) => Reply::Done,
        Err(PutFault::Range) => Reply::Range,
        Err(PutFault::Closed) => Reply::Closed,
        Err(PutFault::Held(owner)) => Reply::Held(owner),
        Err(PutFault::Full) => Reply::Full,
        Err(PutFault::Bad) => Reply::Fault,
        Err(PutFault::Off) => Reply::Lost,
    }
}

fn commit<B: Board>(memory: &mut Memory<B>, slot: u8) -> Reply
    requires { IsTrue memory.old.chart.on }
    ensures step { (m : Array) → Stands memory.old.chart m → Answered m (Commit slot) result memory.new.chart }
    ensures lost { (result ≡ Reply.Lost) ↔ (memory.new.chart.on ≡ false) }
    ensures licence { AnswerLicence (Commit slot) result memory.old.chart memory.new.chart }
    ensures notes { Notes (Commit slot) (result ∷ []) memory.old memory.new }
    ensures works { WorksOf (Commit slot) memory.old.chart memory.new.chart }
    ensures rules { FollowsRules (Commit slot) result memory.old memory.new }
{
    match memory.commit(slot) {
        Ok(()) => Reply::Done,
        Err(EndFault::Closed) => Reply::Closed,
        Err(EndFault::Off) => Reply::Lost,
    }
}

fn abort<B: Board>(memory: &mut Memory<B>, slot: u8) -> Reply
    requires { IsTrue memory.old.chart.on }
    ensures step { (m : Array) → Stands memory.old.chart m → Answered m (Abort slot) result memory.new.chart }
    ensures lost { (result ≡ Reply.Lost) ↔ (memory.new.chart.on ≡ false) }
    ensures licence { AnswerLicence (Abort slot) result memory.old.chart memory.new.chart }
    ensures notes { Notes (Abort slot) (result ∷ []) memory.old memory.new }
    ensures works { WorksOf (Abort slot) memory.old.chart memory.new.chart }
    ensures rules { FollowsRules (Abort slot) result memory.old memory.new }
{
    match memory.abort(slot) {
        Ok(()) => Reply::Done,
        Err(EndFault::Closed) => Reply::Closed,
        Err(EndFault::Off) => Reply::Lost,
    }
}

fn tick<B: Board>(memory: &mut Memory<B>) -> Reply
    requires { IsTrue memory.old.chart.on }
    ensures step { (m : Array) → Stands memory.old.chart m → Answered m Tick result memory.new.chart }
    ensures lost { (result ≡ Reply.Lost) ↔ (memory.new.chart.on ≡ false) }
    ensures licence { AnswerLicence Tick result memory.old.chart memory.new.chart }
    ensures notes { Notes Tick (result ∷ []) memory.old memory.new }
    ensures works { WorksOf Tick memory.old.chart memory.new.chart }
    ensures rules { FollowsRules Tick result memory.old memory.new }
{
    match memory.tick() {
        Ok(_) => Reply::Done,
        Err(Trouble::Bad) => Reply::Fault,
        Err(Trouble::Off) => Reply::Lost,
    }
}

/// What a line asks for that no board does: its caller does it.
#[derive(Clone, Copy, Debug, PartialEq, Eq)]
pub enum BoardRequest {
    /// Nothing: it is empty.
    Nothing,
    /// Power is cut by hand.
    Power,
    /// A failure is planned.
    PlannedFault(PlannedFault),
}

/// Does one line, where it is a call of a memory over any board, and the reply; what else a line asks for is handed back, and
/// nothing changes. Each call but that for counters is answered by the array, whatever was done before; a line of counters
/// tells the memory's, and nothing changes. `Lost` is the answer exactly where power failed in this call, `Fault` only where
/// a flash operation failed in it. It begins as much flash work as that call may, by the memory's own rules.
pub fn answer<B: Board>(memory: &mut Memory<B>, line: &Line) -> Result<Reply, BoardRequest>
    requires { IsTrue memory.old.chart.on }
    ensures step { (earlier : List TraceTurn) (m : Array) → Stands memory.old.chart m
        → CanTell memory.old.chart.shape.entries earlier memory.old.parts
        → IfOk result (λ reply.
        AnswersTo (MayTell memory.old.chart.shape.entries earlier) m line.now reply memory.new.chart) }
    ensures alone { (m : Array) → Stands memory.old.chart m → line.now ≢ Stat
        → IfOk result (λ reply. Answered m line.now reply memory.new.chart) }
    ensures tells { line.now ≡ Stat → (result ≡ Ok (Reply.Stat (counts_of memory.old.parts)))
        × (memory.new ≡ memory.old) }

    ensures lost { (result ≡ Ok Reply.Lost) ↔ (memory.new.chart.on ≡ false) }
    ensures licence { IfOk result (λ reply. AnswerLicence line.now reply memory.old.chart memory.new.chart) }
    ensures notes { IfOk result (λ reply. Notes line.now (reply ∷ []) memory.old memory.new) }
    ensures works { IfOk result (λ _. WorksOf line.now memory.old.chart memory.new.chart) }
    ensures rules { IfOk result (λ reply. FollowsRules line.now reply memory.old memory.new) }

    ensures beside { (other : BoardRequest) → result ≡ Err other → (line.now ≡ line_beside other)
        × (memory.new ≡ memory.old) }
{
    match *line {
        Line::Empty => Err(BoardRequest::Nothing),
        Line::Load { address } => Ok(load(memory, address)),
        Line::Look { address } => Ok(look(memory, address)),
        Line::Store { address, word } => Ok(store(memory, address, word)),
        Line::Begin => Ok(begin(memory)),
        Line::Put {
            slot,
            address,
            word,
        } => Ok(put(memory, slot, address, word)),
        Line::Commit { slot } => Ok(commit(memory, slot)),
        Line::Abort { slot } => Ok(abort(memory, slot)),
        Line::Tick => Ok(tick(memory)),
        Line::Power => Err(BoardRequest::Power),
        Line::Cut { k, g } => Err(BoardRequest::PlannedFault(PlannedFault::Cut { k, g })),
        Line::Bad { k, g } => Err(BoardRequest::PlannedFault(PlannedFault::Bad { k, g })),
        Line::Stat => Ok(Reply::Stat(memory.counts())),
    }
}

/// Plans what a line plans, and the reply.
pub fn arm<B: Bench>(memory: &mut Memory<B>, plan: PlannedFault) -> Reply
    requires on { IsTrue memory.old.chart.on }
    requires ranges { IsLine (line_of_plan plan) }
    ensures step { (earlier : List TraceTurn) (m : Array) → Stands memory.old.chart m
        → CanTell memory.old.chart.shape.entries earlier memory.old.parts
        → AnswersTo (MayTell memory.old.chart.shape.entries earlier) m (line_of_plan plan) result memory.new.chart }
    ensures alone { (m : Array) → Stands memory.old.chart m
        → Answered m (line_of_plan plan) result memory.new.chart }
    ensures lost { (result ≡ Reply.Lost) ↔ (memory.new.chart.on ≡ false) }
    ensures licence { AnswerLicence (line_of_plan plan) result memory.old.chart memory.new.chart }
    ensures notes { Notes (line_of_plan plan) (result ∷ []) memory.old memory.new }
    ensures works { WorksOf (line_of_plan plan) memory.old.chart memory.new.chart }
    ensures rules { FollowsRules (line_of_plan plan) result memory.old memory.new }
{
    match plan {
        PlannedFault::Cut { k, g } => {
            memory.arm_cut(k, g);
            Reply::Armed
        }
        PlannedFault::Bad { k, g } => {
            memory.arm_bad(k, g);
            Reply::Armed
        }
    }
}
