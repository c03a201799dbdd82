// One call on the place of a memory, whatever the memory stands over.
macro_rules! on_each {
    ($place:expr, $slot:ident => $call:expr) => {
        match $place {
            $crate::place::MemoryPlace::Regions($slot) => $call,
            $crate::place::MemoryPlace::File($slot) => $call,
            $crate::place::MemoryPlace::Simulated($slot) => $call,
        }
    };
}

pub(crate) use on_each;
