// What a transaction sees.
ghost use Rattle.std.specs.Prelude.{◌≡◌, ◌*◌, ◌<◌, false, IsTrue, MatchBool, Some};
ghost use Rattle.envy_soundness.specs.Sound.{slot_named as slot_of_undo};
ghost use Rattle.envy_calls.specs.Answers.{LoadsTo, LooksAt};
ghost use Rattle.envy_calls.specs.Codes.{number_of};
ghost use Rattle.envy_calls.specs.Views.{DoesView, IsOwn, ViewsTo};

use crate::code::Code;
use crate::faults::load_answer;
use crate::transactions::slot_named;
use envy_base::{Board, PAGE_WORDS, Undo};
use envy_map::undo;
use envy_memory::Memory;

// The slot that an undo names.
fn slot_of(undo: Undo) -> Option<u8>
    ensures { result ≡ slot_of_undo (Some undo) }
{
    match undo {
        Undo::Clear => None,
        Undo::Blank { slot } => Some(slot),
        Undo::Shadow { slot, row: _ } => Some(slot),
    }
}

// Whether slot `t` owns the page of an address. Without power, and past the last page, it doesn't.
fn is_own<B: Board>(memory: &Memory<B>, t: u8, a: u32) -> bool
    ensures { MatchBool result
        ((a < PAGE_WORDS * memory.now.chart.shape.pages) × IsOwn memory.now t a)
        (IsTrue memory.now.chart.on → a < PAGE_WORDS * memory.now.chart.shape.pages → IsOwn memory.now t a → ⊥) }
{
    let board = memory.board();
    if a / PAGE_WORDS >= board.shape().pages {
        return false;
    }
    match undo(board, a / PAGE_WORDS) {
        Ok(undo) => slot_of(undo) == Some(t),
        Err(_) => false,
    }
}

fn load_word<B: Board>(memory: &mut Memory<B>, a: u32, word: &mut u64) -> Code
    ensures { LoadsTo memory.old memory.new a (number_of result) word.old word.new }
{
    load_answer(memory.load(a), word)
}

fn look_word<B: Board>(memory: &Memory<B>, a: u32, word: &mut u64) -> Code
    ensures { LooksAt memory.now a (number_of result) word.old word.new }
{
    load_answer(memory.look(a), word)
}

fn view_word<B: Board>(memory: &mut Memory<B>, t: u8, a: u32, word: &mut u64) -> Code
    ensures { ViewsTo memory.old memory.new t a (number_of result) word.old word.new }
{
    if is_own(memory, t, a) {
        load_word(memory, a, word)
    } else {
        look_word(memory, a, word)
    }
}

/// The word at an address for slot `t`: what it put, and else what is committed.
pub fn view<B: Board>(slot: &mut Option<Memory<B>>, t: u32, a: u32, word: &mut u64) -> u32
    ensures { DoesView slot.old slot.new t a result word.old word.new }
{
    let Some(memory) = slot else {
        return Code::Empty.number();
    };
    view_word(memory, slot_named(t), a, word).number()
}
