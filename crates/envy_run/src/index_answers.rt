//! The calls of the tree and the plans that lines of an index name, each with its reply.

ghost use Rattle.std.specs.Prelude.{◌≡◌, ◌≤◌};
ghost use Rattle.envy_btree.specs.declared.line.IndexLine.TheVariants.{Get, Insert, Remove, Cut, Bad};
ghost use Rattle.envy_run.specs.IndexServing.{Serving, AnswersIndex, ReplyLicence};
ghost use Rattle.envy_run.specs.IndexSpending.{SpendsPuts, puts_of};
ghost use Rattle.envy_run.specs.IndexTurns.{Pairs, most_of, told};

use envy_base::Bench;
use envy_btree::{IndexReply, TreeFault, get, insert, remove};
use envy_memory::OneTx;

fn tell(value: Option<u64>) -> IndexReply
    ensures { result ≡ told value }
{
    match value {
        Some(value) => IndexReply::Value(value),
        None => IndexReply::Missing,
    }
}

/// Asks the tree for a key.
pub fn ask<B: Bench>(words: &mut OneTx<B>, key: u64) -> IndexReply
    requires { (es : Pairs) × Serving words.old.memory words.old.begun es }
    ensures step { (es : Pairs) → Serving words.old.memory words.old.begun es
        → AnswersIndex (most_of words.old.memory.chart.shape.pages) es (Get key) result words.new.memory
        words.new.begun }
    ensures licence { ReplyLicence (Get key) result words.old.memory.chart words.new.memory.chart }
    ensures spent { SpendsPuts (puts_of (Get key)) words.old.memory.chart words.new.memory.chart }
{
    match get(words, key) {
        Ok(value) => tell(value),
        Err(_) => IndexReply::Lost,
    }
}

/// Puts a pair into the tree.
pub fn set<B: Bench>(words: &mut OneTx<B>, key: u64, value: u64) -> IndexReply
    requires { (es : Pairs) × Serving words.old.memory words.old.begun es }
    ensures step { (es : Pairs) → Serving words.old.memory words.old.begun es
        → AnswersIndex (most_of words.old.memory.chart.shape.pages) es (Insert key value) result words.new.memory
        words.new.begun }
    ensures licence { ReplyLicence (Insert key value) result words.old.memory.chart words.new.memory.chart }
    ensures spent { SpendsPuts (puts_of (Insert key value)) words.old.memory.chart words.new.memory.chart }
{
    match insert(words, key, value) {
        Ok(before) => tell(before),
        Err(TreeFault::Full) => IndexReply::Full,
        Err(TreeFault::Bad) => IndexReply::Fault,
        Err(TreeFault::Off) => IndexReply::Lost,
    }
}

/// Takes a key out of the tree.
pub fn take_out<B: Bench>(words: &mut OneTx<B>, key: u64) -> IndexReply
    requires { (es : Pairs) × Serving words.old.memory words.old.begun es }
    ensures step { (es : Pairs) → Serving words.old.memory words.old.begun es
        → AnswersIndex (most_of words.old.memory.chart.shape.pages) es (Remove key) result words.new.memory
        words.new.begun }
    ensures licence { ReplyLicence (Remove key) result words.old.memory.chart words.new.memory.chart }
    ensures spent { SpendsPuts (puts_of (Remove key)) words.old.memory.chart words.new.memory.chart }
{
    match remove(words, key) {
        Ok(before) => tell(before),
        Err(TreeFault::Bad) => IndexReply::Fault,
        Err(TreeFault::Off) => IndexReply::Lost,
        Err(TreeFault::Full) => unreachable!(),
    }
}

/// Plans a cut of power.
pub fn plan_cut<B: Bench>(words: &mut OneTx<B>, k: u32, g: u64) -> IndexReply
    requires ready { (es : Pairs) × Serving words.old.memory words.old.begun es }
    requires place { 1 ≤ k }
    ensures step { (es : Pairs) → Serving words.old.memory words.old.begun es
        → AnswersIndex (most_of words.old.memory.chart.shape.pages) es (Cut k g) result words.new.memory
        words.new.begun }
    ensures licence { ReplyLicence (Cut k g) result words.old.memory.chart words.new.memory.chart }
    ensures spent { SpendsPuts (puts_of (Cut k g)) words.old.memory.chart words.new.memory.chart }
{
    words.arm_cut(k, g);
    IndexReply::Armed
}

/// Plans that a flash operation goes bad.
pub fn plan_bad<B: Bench>(words: &mut OneTx<B>, k: u32, g: u64) -> IndexReply
    requires ready { (es : Pairs) × Serving words.old.memory words.old.begun es }
    requires place { 1 ≤ k }
    ensures step { (es : Pairs) → Serving words.old.memory words.old.begun es
        → AnswersIndex (most_of words.old.memory.chart.shape.pages) es (Bad k g) result words.new.memory
        words.new.begun }
    ensures licence { ReplyLicence (Bad k g) result words.old.memory.chart words.new.memory.chart }
    ensures spent { SpendsPuts (puts_of (Bad k g)) words.old.memory.chart words.new.memory.chart }
{
    words.arm_bad(k, g);
    IndexReply::Armed
}
