use crate::told::same;
use envy_array::Words;
use envy_heap::VecWords;

#[test]
fn a_memory_of_vectors_keeps_what_is_finished(rt: HostRuntime) {
    let mut words = VecWords::new(rt.alloc(), 2048, 32).expect(&rt, "no room for words");
    same(&rt, &(words.size(), words.room()), &(2048, 32), "sizes");
    words.start().expect(&rt, "the first start");
    words.put(5, 7).expect(&rt, "the first put");
    words.finish().expect(&rt, "the finish");
    words.start().expect(&rt, "the second start");
    words.put(5, 8).expect(&rt, "a put over a word");
    words.put(2047, 9).expect(&rt, "a put of the last word");
    let changed = (words.load(5), words.load(2047));
    same(&rt, &changed, &(Ok(8), Ok(9)), "words that were put");
    words.undo().expect(&rt, "the undo");
    let kept = (words.load(5), words.load(2047));
    same(&rt, &kept, &(Ok(7), Ok(0)), "words that were finished");
}
