use crate::told::{same, same_at, same_list};
use envy_frames::Frames;
use std::alloc::Global;
use std::test::Fail;

#[test]
fn all_frames_are_taken_and_no_more(rt: HostRuntime) {
    let mut frames = Frames::new(rt.alloc(), 2).expect(&rt, "no room for frames");
    let found = (frames.used(), frames.oldest());
    same(&rt, &found, &(0, None), "none is taken");
    for (page, is_taken) in [(5, true), (6, true), (7, false)].as_slice() {
        let found = frames.take(*page, 0).is_some();
        same_at(&rt, &found, is_taken, "page", *page as u64);
    }
    same(&rt, &frames.used(), &2, "frames that are taken");
}

/// The pages that are held, the oldest first. They are given back.
fn drained(alloc: Global, frames: &mut Frames) -> Result<Vec<u32>, Fail> {
    let mut pages = Vec::new(alloc);
    for _turn in 0..frames.used() {
        if let Some(held) = frames.oldest() {
            pages.push(held.page)?;
            frames.give_back(held.frame);
        }
    }
    Ok(pages)
}

/// Pages 10, 11 and 12 are taken, one of them is given back, and page 13 is taken in its frame.
fn after_giving_back(alloc: Global, given: u32) -> Result<Vec<u32>, Fail> {
    let mut frames = Frames::new(alloc, 3)?;
    let Some(first) = frames.take(10, 3) else {
        return Err("no first frame")?;
    };
    let Some(second) = frames.take(11, 4) else {
        return Err("no second frame")?;
    };
    let Some(third) = frames.take(12, 5) else {
        return Err("no third frame")?;
    };
    let (frame, home) = match given {
        10 => (first, 3),
        11 => (second, 4),
        _ => (third, 5),
    };
    if frames.home(frame) != home {
        return Err("another home")?;
    }
    frames.give_back(frame);
    if frames.take(13, 6) != Some(frame) {
        return Err("the frame wasn't free")?;
    }
    drained(alloc, &mut frames)
}

/// The page that is given back, and those that are held then, the oldest first.
const LEFT: [(&str, u32, [u32; 3]); 3] = [
    ("page 10 given back", 10, [11, 12, 13]),
    ("page 11 given back", 11, [10, 12, 13]),
    ("page 12 given back", 12, [10, 11, 13]),
];

#[test]
fn the_others_keep_their_order(rt: HostRuntime) -> Result<(), Fail> {
    for (name, given, left) in LEFT.as_slice() {
        let pages = after_giving_back(rt.alloc(), *given)?;
        same_list(&rt, &pages, left, name);
    }
    Ok(())
}

/// Page 1 stays the oldest while many others come and go, more than the ring has room for. Then pages 30
/// and 31 are taken.
fn after_many_rounds(alloc: Global) -> Result<Vec<u32>, Fail> {
    let mut frames = Frames::new(alloc, 3)?;
    let _oldest = frames.take(1, 0);
    for page in 2..30 {
        if let Some(frame) = frames.take(page, 0) {
            frames.give_back(frame);
        }
    }
    let _next = frames.take(30, 0);
    let _newest = frames.take(31, 0);
    drained(alloc, &mut frames)
}

#[test]
fn frames_given_back_from_the_middle_make_room(rt: HostRuntime) -> Result<(), Fail> {
    let pages = after_many_rounds(rt.alloc())?;
    same_list(&rt, &pages, &[1, 30, 31], "pages that are left");
    Ok(())
}
