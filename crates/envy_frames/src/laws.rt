ghost use Rattle.std.specs.Prelude.{◌≡◌, ◌≢◌, ◌↔◌, ℕ, ◌-◌, ◌<◌, List, [], ◌∷◌, ◌++◌, count_by, drop, length, Option, None, Some, slice_index_or, slice_set};
ghost use Rattle.std.specs.List.{filter};
ghost use Rattle.envy_base.specs.declared.fields.Place.{Place};
ghost use Rattle.envy_base.specs.declared.fields.Place.TheVariants.{Frame};
ghost use Rattle.envy_base.specs.declared.shape.Shape.{Shape};
ghost use Rattle.envy_frames.specs.Agreement.{AreHeld, IsElsewhere, is_framed};
ghost use Rattle.envy_frames.specs.Order.{IsUnheld, is_other};
ghost use Rattle.envy_frames.specs.declared.held.Held.{Held};
ghost use Rattle.envy_base.specs.Shape.{positions_of};

/// Once the place of a held page is no longer a frame, the others are held when its frame is given
/// back.
pub fn giving_back_keeps_the_agreement()
    ensures { (sh : Shape) (places : List (Option Place)) (held : List Held) (page frame : ℕ) (x : Option Place)
        → AreHeld sh places held → slice_index_or places page None ≡ Some (Frame frame) → IsElsewhere x
        → AreHeld sh (slice_set places page x) (filter (is_other frame) held) }
{}

/// A page that was in no frame, and whose place becomes the frame that was taken for it, is held with
/// the others.
pub fn taking_keeps_the_agreement()
    ensures { (sh : Shape) (places : List (Option Place)) (held : List Held) (page frame home : ℕ)
        → AreHeld sh places held → length places ≡ sh.pages → page < sh.pages → home < positions_of sh
        → IsElsewhere (slice_index_or places page None) → IsUnheld held frame
        → AreHeld sh (slice_set places page (Some (Frame frame)))
        (held ++ (record { frame = frame; page = page; home = home }) ∷ []) }
{}

/// Pages that go from one place to another, neither of them a frame, leave the held frames as they are.
pub fn pages_elsewhere_keep_the_agreement()
    ensures one { (sh : Shape) (places : List (Option Place)) (held : List Held) (page : ℕ) (x : Option Place)
        → AreHeld sh places held → IsElsewhere (slice_index_or places page None) → IsElsewhere x
        → AreHeld sh (slice_set places page x) held }
    ensures any { (sh : Shape) (places new : List (Option Place)) (held : List Held)
        → ((p k : ℕ) → (slice_index_or new p None ≡ Some (Frame k)) ↔ (slice_index_or places p None ≡ Some (Frame k)))
        → AreHeld sh places held → AreHeld sh new held }
{}

/// As many frames are held as places are frames. A frame that isn't held is no page's, and a page that is
/// in no frame isn't in one after the oldest held page left its own.
pub fn places_tell_the_held_frames()
    ensures count { (sh : Shape) (places : List (Option Place)) (held : List Held) → AreHeld sh places held
        → length held ≡ count_by is_framed places }
    ensures unheld { (sh : Shape) (places : List (Option Place)) (held : List Held) (frame page : ℕ)
        → AreHeld sh places held → IsUnheld held frame → slice_index_or places page None ≢ Some (Frame frame) }
    ensures dropped { (sh then_sh : Shape) (places new : List (Option Place)) (held rest : List Held) (page : ℕ)
        → AreHeld sh places held → AreHeld then_sh new rest → rest ≡ drop 1 held
        → IsElsewhere (slice_index_or places page None) → IsElsewhere (slice_index_or new page None) }
{}
