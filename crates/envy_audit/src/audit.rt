ghost use Rattle.std.specs.Prelude.{◌≡◌, false, IfOk, IsTrue, MatchResult};
ghost use Rattle.envy_base.specs.Shape.{IsShape};
ghost use Rattle.envy_map.specs.Fields.{chart};
ghost use Rattle.envy_audit.specs.Judging.{FindsFirst, IsFormattedAs, Judges};

use crate::map_fields::{decodes, is_formatted_as_its_shape};
use crate::sequence::first_of_kept;
use crate::tables::{mark_frames, mark_placed, mark_used, note_owners};
use crate::{Rule, Verdict};
use envy_base::{Board, Off, Shape};
use std::alloc::{AllocError, Global};
use std::marker::Model;

/// Want of memory.
pub type NoMemory = AllocError;

/// The tables of an audit of boards of one shape.
#[derive(Drop)]
pub struct Audit {
    // The segments that stand at positions.
    placed: Vec<bool>,
    // Those of them that stand at positions in use.
    used: Vec<bool>,
    // The frames that places name.
    named: Vec<bool>,
    // For each row the page that keeps it and 1, or 0.
    owners: Vec<u32>,
    // The rows of which the spare holds copies.
    copied: Vec<bool>,
    shape: Shape,
}

impl Model for Audit {
    ghost use Rattle.std.specs.Prelude.{◌≡◌, ◌*◌, vec_len};
    ghost use Rattle.envy_base.specs.declared.shape.Shape.{Shape};

    ghost Value = { Shape };

    ghost view = { λ a. a.shape };

    ghost invariant = { λ a. (vec_len a.placed ≡ a.shape.segments) × (vec_len a.used ≡ a.shape.segments) × (vec_len a.named ≡ a.shape.frames)
        × (vec_len a.owners ≡ a.shape.segments * a.shape.rows) × (vec_len a.copied ≡ a.shape.segments * a.shape.rows) };
}

impl Audit {
    /// An audit of boards of this shape.
    ///
    /// # Errors
    ///
    /// `NoMemory` where the tables can't be had.
    pub fn new(alloc: Global, shape: &Shape) -> Result<Audit, NoMemory>
        requires { IsShape shape.now }
        ensures { IfOk result (λ audit. audit ≡ shape.now) }
    {
        let rows = (shape.segments * shape.rows) as usize;
        Ok(Audit {
            placed: vec![in alloc; false; shape.segments as usize]?,
            used: vec![in alloc; false; shape.segments as usize]?,
            named: vec![in alloc; false; shape.frames as usize]?,
            owners: vec![in alloc; 0; rows]?,
            copied: vec![in alloc; false; rows]?,
            shape: *shape,
        })
    }

    /// Whether a board is sound, and if not, which point is the first that fails. It takes no memory.
    ///
    /// # Errors
    ///
    /// `Off` exactly where power is off.
    pub fn check<B: Board>(&mut self, board: &B) -> Result<Verdict, Off>
        requires { (B.state board.now).shape ≡ self.old }
        ensures verdict { let c = chart (B.state board.now) in
            MatchResult result (λ verdict. IsTrue c.on × Judges verdict c) (λ _. c.on ≡ false) }
        ensures kept { self.new ≡ self.old }
    {
        let formatted = is_formatted_as_its_shape(board)?;
        if !formatted {
            return Ok(Verdict::Unformatted);
        }
        let first = self.first_broken(board)?;
        Ok(match first {
            Some(rule) => Verdict::Broken(rule),
            None => Verdict::Sound,
        })
    }

    // The first point that fails.
    fn first_broken<B: Board>(&mut self, board: &B) -> Result<Option<Rule>, Off>
        requires shape { (B.state board.now).shape ≡ self.old }
        requires formatted { IsFormattedAs (chart (B.state board.now)) }
        ensures finds { let c = chart (B.state board.now) in MatchResult result (FindsFirst c) (λ _. c.on ≡ false) }
        ensures kept { self.new ≡ self.old }
    {
        let _ = &self.shape;
        let fields = decodes(board)?;
        if !fields {
            return Ok(Some(Rule::A));
        }
        let positions = mark_placed(board, &mut self.placed)?;
        if !positions {
            return Ok(Some(Rule::B));
        }
        mark_used(board, &mut self.used)?;
        let frames = mark_frames(board, &mut self.named)?;
        if !frames {
            return Ok(Some(Rule::C));
        }
        let rows = note_owners(board, &mut self.owners)?;
        if !rows {
            return Ok(Some(Rule::D));
        }
        first_of_kept(
            board,
            &self.placed,
            &self.used,
            &self.owners,
            &mut self.copied,
        )
    }
}
