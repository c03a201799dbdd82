use crate::told::same;
use envy_base::Place;
use envy_table::Cache;

#[test]
fn one_entry_can_be_had(rt: HostRuntime) {
    let mut cache = Cache::new(rt.alloc(), 1).expect(&rt, "no room for a cache");
    cache.retarget(7, Place::Frame(3));
    cache.empty();
    let found = (cache.hits(), cache.misses());
    same(&rt, &found, &(0, 0), "hits and misses");
}
