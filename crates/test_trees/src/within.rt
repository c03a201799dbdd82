//! Changes within one transaction of the test, and a change that has no room in it.
use crate::calls::empty_index;
use crate::told::same;
use envy_array::Words;
use envy_btree::{ChangeFault, count, insert_within, remove_within};

#[test]
fn changes_of_one_transaction_go_together(rt: HostRuntime) {
    let mut words = empty_index(rt.alloc(), 2048).expect(&rt, "no room for words");
    words.start().expect(&rt, "the start");
    let first = insert_within(&mut words, 5, 50, 7).expect(&rt, "the first pair");
    let second = insert_within(&mut words, 5, 51, 7).expect(&rt, "its second value");
    let third = remove_within(&mut words, 5, 4).expect(&rt, "its removal");
    let was = (first, second, third);
    same(&rt, &was, &(None, Some(50), Some(51)), "old values");
    // one leaf: an insertion may put words in 7 pages
    let refused = insert_within(&mut words, 6, 60, 6);
    same(&rt, &refused, &Err(ChangeFault::Room), "one page too few");
    words.undo().expect(&rt, "the undo");
    same(&rt, &count(&mut words), &Ok(0), "pairs after the undo");
}
