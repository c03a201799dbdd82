ghost use Rattle.std.specs.Prelude.{◌≡◌, ◌^◌, ◌<◌, length, slice_index, swap, IfOk};
ghost use Rattle.std.specs.List.{range_with_len};
ghost use Rattle.envy_space.specs.Order.{IsOrder};

use envy_base::NoMemory;
use std::alloc::Global;
use std::marker::Model;

/// All segments in an order, and the place of each in it.
#[derive(Drop)]
pub struct Order {
    segments: Vec<u32>,
    places: Vec<u32>,
}

impl Model for Order {
    ghost use Rattle.std.specs.Prelude.{List, ℕ};
    ghost use Rattle.envy_space.specs.Order.{ArePlaces};

    ghost Value = { List ℕ };

    ghost view = { λ a. a.segments.items };

    ghost invariant = { λ a. ArePlaces a.segments.items a.places.items };
}

impl Order {
    /// So many segments, each at the place of its number.
    pub fn new(alloc: Global, count: u32) -> Result<Order, NoMemory>
        ensures { IfOk result (λ order. order ≡ range_with_len 0 count) }
    {
        let mut segments = vec![in alloc; 0; count as usize]?;
        let mut places = vec![in alloc; 0; count as usize]?;
        number(&mut segments);
        number(&mut places);
        Ok(Order { segments, places })
    }

    /// Puts each segment at the place of its number.
    pub fn clear(&mut self)
        ensures { self.new ≡ range_with_len 0 (length self.old) }
    {
        number(&mut self.segments);
        number(&mut self.places);
    }

    /// The segment at a place.
    pub fn segment_at(&self, place: u32) -> u32
        requires { place < length self.now }
        ensures segment { result ≡ slice_index self.now place }
        ensures fits { result < length self.now }
        ensures order { IsOrder self.now }
    {
        self.segments[place as usize]
    }

    /// The place of a segment.
    pub fn place_of(&self, segment: u32) -> u32
        requires { segment < length self.now }
        ensures stands { slice_index self.now result ≡ segment }
        ensures fits { result < length self.now }
        ensures order { IsOrder self.now }
    {
        self.places[segment as usize]
    }

    /// Lets the segments at two places change places.
    pub fn exchange(&mut self, i: u32, j: u32)
        requires i { i < length self.old }
        requires j { j < length self.old }
        ensures swapped { self.new ≡ swap self.old i j }
        ensures order { IsOrder self.new }
    {
        let (first, second) = (self.segment_at(i), self.segment_at(j));
        self.segments[i as usize] = second;
        self.segments[j as usize] = first;
        self.places[first as usize] = j;
        self.places[second as usize] = i;
    }
}

/// Writes each index at itself.
fn number(items: &mut [u32])
    requires { length items.old < 2 ^ 32 }
    ensures { items.new ≡ range_with_len 0 (length items.old) }
{
    for (i, item) in items.iter_mut().enumerate() {
        *item = i as u32;
    }
}
