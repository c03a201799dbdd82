ghost use Rattle.std.specs.Prelude.{◌≡◌, ◌↔◌, ◌<◌, ◌≤◌, false, IsTrue, [], ◌∷◌, ◌++◌, length, IsErr, IsNone, IfNone, IfOk, IfSome, OnErr, OnOk, Any, slice_get};
ghost use Rattle.std.specs.List.{filter};
ghost use Rattle.envy_soundness.specs.Sound.{IsSound};
ghost use Rattle.envy_map.specs.Fields.{chart};
ghost use Rattle.envy_frames.specs.Agreement.{AreHeld, held_by_default};
ghost use Rattle.envy_frames.specs.Order.{IsOrder, IsUnheld, is_other};

use crate::Held;
use crate::entry::Entry;
use crate::free::free_others;
use crate::ring::{append, drop_stale, make_stale};
use crate::table::hold_named;
use circular_buffer::HeapCircularBuffer;
use envy_base::{Board, NoMemory, Off};
use std::alloc::Global;
use std::marker::Model;

/// The frames of a board, and in which order pages are held in them.
#[derive(Drop)]
pub struct Frames {
    /// The oldest first. An entry is stale once its frame was given back; it leaves when it comes to the
    /// front, or when the ring is full, which has room for two entries a frame.
    entries: HeapCircularBuffer<Entry>,
    /// Of each frame a number that changes when it is given back.
    stamps: Vec<u32>,
    /// Of each frame the home of the page that it holds.
    homes: Vec<u32>,
    /// A stack of the frames that aren't held.
    free: Vec<u32>,
    /// Room for one mark to each frame, for `rebuild`.
    marks: Vec<bool>,
}

impl Model for Frames {
    ghost use Rattle.std.specs.Prelude.{length, vec_capacity};
    ghost use Rattle.envy_frames.specs.Entries.{IsRing, held_in};
    ghost use Rattle.envy_frames.specs.Order.{Order, IsFrames};

    ghost Value = { Order };

    ghost view = { λ a. record { held = held_in a.stamps.items a.entries.items; count = length a.stamps.items } };

    ghost invariant = { λ a.
        IsFrames (record { held = held_in a.stamps.items a.entries.items; count = length a.stamps.items }) a.free.items (vec_capacity a.free) a.marks.items
        × IsRing a.entries a.stamps.items a.homes.items };
}

impl Frames {
    /// So many frames, none held. It takes all memory that is ever needed; no other call takes any.
    pub fn new(alloc: Global, count: u32) -> Result<Frames, NoMemory>
        requires { 1 ≤ count }
        ensures { IfOk result (λ frames. frames ≡ record { held = []; count = count }) }
    {
        let entries = HeapCircularBuffer::with_capacity(alloc, 2 * count as usize)?;
        let stamps = vec![in alloc; 0; count as usize]?;
        let homes = vec![in alloc; 0; count as usize]?;
        let mut free = Vec::with_capacity(alloc, count as usize)?;
        let mut marks = vec![in alloc; false; count as usize]?;
        free_others(&mut free, &mut marks, &entries);
        Ok(Frames {
            entries,
            stamps,
            homes,
            free,
            marks,
        })
    }

    /// How many frames are held.
    pub fn used(&self) -> u32
        ensures value { result ≡ length self.now.held }
        ensures whole { IsOrder self.now }
    {
        (self.stamps.len() - self.free.len()) as u32
    }

    /// The frame that has been held longest.
    pub fn oldest(&self) -> Option<Held>
        ensures first { result ≡ slice_get self.now.held 0 }
        ensures none { IsNone result ↔ (self.now.held ≡ []) }
        ensures whole { IsOrder self.now }
    {
        let entry = self.entries.front().copied()?;
        Some(entry.held)
    }

    /// Holds a page in a frame that isn't held, which becomes the newest. `None` where all are held.
    pub fn take(&mut self, page: u32, home: u32) -> Option<u32>
        ensures newest { IfSome result (λ frame.
            self.new ≡ record self.old {
              held = self.old.held ++ (record { frame = frame; page = page; home = home })
                  ∷ [];
            }) }
        ensures within { IfSome result (λ frame. frame < self.old.count) }
        ensures unheld { IfSome result (IsUnheld self.old.held) }
        ensures all { IsNone result ↔ (length self.old.held ≡ self.old.count) }
        ensures none { IfNone result (self.new ≡ self.old) }
    {
        let frame = self.free.pop()?;
        self.homes[frame as usize] = home;
        append(&mut self.entries, &self.stamps, Held { frame, page, home });
        Some(frame)
    }

    /// A held frame leaves, and the others keep their order.
    pub fn give_back(&mut self, frame: u32)
        requires held { Any (λ h. h.frame ≡ frame) self.old.held }
        ensures { self.new ≡ record self.old { held = filter (is_other frame) self.old.held } }
    {
        make_stale(&mut self.entries, &mut self.stamps, frame);
        drop_stale(&mut self.entries, &self.stamps);
        let _room = self.free.push(frame);
    }

    /// The home of the page that a held frame holds.
    pub fn home(&self, frame: u32) -> u32
        requires held { Any (λ h. h.frame ≡ frame) self.now.held }
        ensures value { Any (λ h. (h.frame ≡ frame) × (h.home ≡ result)) self.now.held }
        ensures whole { IsOrder self.now }
    {
        self.homes[frame as usize]
    }

    /// Holds the frames that the map of the board names, in rising order of page, each with its default
    /// home. `Off` where power is off, and nothing changes then.
    pub fn rebuild<B: Board>(&mut self, board: &B) -> Result<(), Off>
        requires sound { IsTrue (B.state board.now).on → IsSound (chart (B.state board.now)) }
        requires count { self.old.count ≡ (B.state board.now).shape.frames }
        ensures held { OnOk result
            (self.new.held ≡ held_by_default (B.state board.now).shape (chart (B.state board.now)).fields.places) }
        ensures agrees { OnOk result
            (AreHeld (B.state board.now).shape (chart (B.state board.now)).fields.places self.new.held) }
        ensures count { self.new.count ≡ self.old.count }
        ensures off { IsErr result ↔ ((B.state board.now).on ≡ false) }
        ensures kept { OnErr result (self.new ≡ self.old) }
    {
        if !board.powered() {
            return Err(Off);
        }
        self.entries.clear();
        self.stamps.fill(0);
        hold_named(&mut self.entries, &mut self.homes, board)?;
        free_others(&mut self.free, &mut self.marks, &self.entries);
        Ok(())
    }
}
