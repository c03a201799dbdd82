use crate::told::same_at;
use envy_txn::Owned;
use std::process::Abort;

/// No page is owned, and so none of these; and there is room for one, or not.
fn assert_none(rt: &impl Abort, owned: &Owned, room: bool, pages: &[u32]) {
    for page in pages {
        let found = (owned.room(), owned.count(), owned.owner(*page));
        same_at(rt, &found, &(room, 0, None), "owner", *page as u64);
    }
}

#[test]
fn no_page_may_be_owned_under_the_limit_0(rt: HostRuntime) {
    let mut owned = Owned::new(rt.alloc(), 0).expect(&rt, "no room");
    assert_none(&rt, &owned, false, &[3]);
    owned.forget();
    assert_none(&rt, &owned, false, &[3]);
}

#[test]
fn a_page_below_the_number_of_pages_or_past_it_has_no_owner_at_first(rt: HostRuntime) {
    let owned = Owned::of_pages(rt.alloc(), 3, 8).expect(&rt, "no room");
    assert_none(&rt, &owned, true, &[7, 8]);
}
