ghost use Rattle.std.specs.Prelude.{IsTrue, false, ◌≡◌, ◌≢◌, ◌+◌, ◌-◌, ◌*◌, ◌/◌, ◌%◌, ◌^◌, ◌<◌, ◌≤◌, ℕ, length, replicate, map, drop, slice_index};
ghost use Rattle.envy_space.specs.Winners.{AreNodes, HasRisen, IsTree, IsRight, IsRun, better, late_scores, node as node_of, score_in, scores_of};

/// A place and its score.
#[derive(Clone, Copy)]
pub struct Entry {
    pub place: u32,
    pub score: u32,
}

impl Entry {
    /// The best of no places.
    pub const NOBODY: Entry = Entry { place: 0, score: 0 };

    /// Whether it is the same place with the same score.
    fn is(self, other: Entry) -> bool
        ensures { IsTrue result → self ≡ other }
    {
        self.place == other.place && self.score == other.score
    }

    /// The other entry, if its score is higher.
    pub fn or_better(self, other: Entry) -> Entry
        ensures { result ≡ better self other }
    {
        if other.score > self.score {
            other
        } else {
            self
        }
    }
}

fn node(nodes: &[Entry], i: u32) -> Entry
    requires { i < length nodes.now }
    ensures { result ≡ node_of nodes.now i }
{
    nodes[i as usize]
}

/// Makes the nodes those of so many places, each with this score.
pub fn lay(nodes: &mut [Entry], places: u32, score: u32)
    requires some { 1 ≤ places }
    requires few { places < 2 ^ 31 }
    requires long { length nodes.old ≡ 2 * places }
    ensures tree { IsTree places nodes.new }
    ensures scores { scores_of places nodes.new ≡ replicate places score }
    ensures late { late_scores places nodes.new (record { place = 0; score = score }) ≡ replicate places score }
{
    lay_places(nodes, places, score);
    mend_all(nodes, places);
}

/// Writes the nodes of the places.
fn lay_places(nodes: &mut [Entry], places: u32, score: u32)
    requires some { 1 ≤ places }
    requires few { places < 2 ^ 31 }
    requires long { length nodes.old ≡ 2 * places }
    ensures nodes { AreNodes places nodes.new }
    ensures scores { scores_of places nodes.new ≡ replicate places score }
{
    for place in 0..places {
        nodes[(places + place) as usize] = Entry { place, score };
    }
}

/// Makes each node below the places the better of its two.
fn mend_all(nodes: &mut [Entry], places: u32)
    requires { AreNodes places nodes.old }
    ensures tree { IsTree places nodes.new }
    ensures scores { scores_of places nodes.new ≡ scores_of places nodes.old }
{
    let mut i = places;
    while i > 1 {
        i -= 1;
        nodes[i as usize] = better_below(nodes, i);
    }
}

/// Makes each node on the way from node `at` to node 1 the better of its two, where only the next one
/// may not be. It ends at a node that stays as it was, since none above it changes then.
pub fn mend_above(nodes: &mut [Entry], places: u32, mut at: u32)
    requires nodes { AreNodes places nodes.old }
    requires some { 1 ≤ at }
    requires within { at < 2 * places }
    requires others { (i : ℕ) → 1 ≤ i → i < places → i ≢ at / 2 → IsRight nodes.old i }
    ensures tree { IsTree places nodes.new }
    ensures scores { scores_of places nodes.new ≡ scores_of places nodes.old }
{
    while at > 1 {
        at /= 2;
        let entry = better_below(nodes, at);
        if node(nodes, at).is(entry) {
            return;
        }
        nodes[at as usize] = entry;
    }
}

/// The same where the entry of node `at` has risen: it needs no look at the node beside it, but where it is level
/// with the node above.
fn raise_above(nodes: &mut [Entry], places: u32, mut at: u32)
    requires nodes { AreNodes places nodes.old }
    requires some { 1 ≤ at }
    requires within { at < 2 * places }
    requires others { (i : ℕ) → 1 ≤ i → i < places → i ≢ at / 2 → IsRight nodes.old i }
    requires risen { 2 ≤ at → HasRisen nodes.old at }
    ensures tree { IsTree places nodes.new }
    ensures scores { scores_of places nodes.new ≡ scores_of places nodes.old }
{
    while 1 < at {
        if !raise_one(nodes, places, at) {
            return;
        }
        at /= 2;
    }
}

/// Makes the node above node `at`, whose entry has risen, the better of its two. Answers whether it has changed.
#[inline(always)]
fn raise_one(nodes: &mut [Entry], places: u32, at: u32) -> bool
    requires nodes { AreNodes places nodes.old }
    requires some { 2 ≤ at }
    requires within { at < 2 * places }
    requires others { (i : ℕ) → 1 ≤ i → i < places → i ≢ at / 2 → IsRight nodes.old i }
    requires risen { HasRisen nodes.old at }
    ensures nodes { AreNodes places nodes.new }
    ensures scores { scores_of places nodes.new ≡ scores_of places nodes.old }
    ensures others { (i : ℕ) → 1 ≤ i → i < places → i ≢ at / 2 / 2 → IsRight nodes.new i }
    ensures same { result ≡ false → IsTree places nodes.new }
    ensures risen { IsTrue result → 2 ≤ at / 2 → HasRisen nodes.new (at / 2) }
{
    let above = node(nodes, at / 2);
    if node(nodes, at).score < above.score {
        return false;
    }
    let entry = risen_better(nodes, at);
    if above.is(entry) {
        return false;
    }
    nodes[(at / 2) as usize] = entry;
    true
}

/// The better entry of node `at`, which has risen as high as the node above it, and of the node beside it.
#[inline(always)]
fn risen_better(nodes: &[Entry], at: u32) -> Entry
    requires some { 2 ≤ at }
    requires within { at < length nodes.now }
    requires even { length nodes.now % 2 ≡ 0 }
    requires few { length nodes.now < 2 ^ 32 }
    requires risen { HasRisen nodes.now at }
    requires level { (node_of nodes.now (at / 2)).score ≤ (node_of nodes.now at).score }
    ensures better { result ≡ better (node_of nodes.now (2 * (at / 2))) (node_of nodes.now (2 * (at / 2) + 1)) }
    ensures level { (node_of nodes.now (at / 2)).score ≤ result.score }
{
    let entry = node(nodes, at);
    if entry.score > node(nodes, at / 2).score {
        entry
    } else {
        better_below(nodes, at / 2)
    }
}

/// The better entry of the two nodes below a node.
fn better_below(nodes: &[Entry], i: u32) -> Entry
    requires below { 2 * i + 1 < length nodes.now }
    requires few { length nodes.now < 2 ^ 32 }
    ensures { result ≡ better (node_of nodes.now (2 * i)) (node_of nodes.now (2 * i + 1)) }
{
    node(nodes, 2 * i).or_better(node(nodes, 2 * i + 1))
}

/// The entry with the highest score of the places from `first` to below `end`, the lowest of several.
pub fn best_between(nodes: &[Entry], places: u32, first: u32, end: u32) -> Entry
    requires tree { IsTree places nodes.now }
    requires order { first ≤ end }
    requires within { end ≤ places }
    ensures { IsRun (score_in places nodes.now) first end result }
{
    let (mut low, mut high) = (places + first, places + end);
    let (mut left, mut right) = (Entry::NOBODY, Entry::NOBODY);
    while low < high {
        if low % 2 == 1 {
            left = left.or_better(node(nodes, low));
            low += 1;
        }
        if high % 2 == 1 {
            high -= 1;
            right = node(nodes, high).or_better(right);
        }
        low /= 2;
        high /= 2;
    }
    left.or_better(right)
}

/// Writes the score of a place, and makes each node above it the better of its two.
pub fn settle(nodes: &mut [Entry], places: u32, entry: Entry)
    requires tree { IsTree places nodes.old }
    requires within { entry.place < places }
    ensures tree { IsTree places nodes.new }
    ensures scores { scores_of places nodes.new ≡ late_scores places nodes.old entry }
{
    let at = places + entry.place;
    let score = node(nodes, at).score;
    if score == entry.score {
        return;
    }
    nodes[at as usize] = entry;
    if score < entry.score {
        raise_above(nodes, places, at);
    } else {
        mend_above(nodes, places, at);
    }
}

/// The entry with the highest score of the places from `first` to below `end`, the lowest of several,
/// where one place has another score.
pub fn best_with(nodes: &[Entry], places: u32, late: Entry, first: u32, end: u32) -> Entry
    requires tree { IsTree places nodes.now }
    requires late { late.place < places }
    requires order { first ≤ end }
    requires within { end ≤ places }
    ensures { IsRun (slice_index (late_scores places nodes.now late)) first end result }
{
    if late.place < first || end <= late.place {
        return best_between(nodes, places, first, end);
    }
    let left = best_between(nodes, places, first, late.place);
    let right = best_between(nodes, places, late.place + 1, end);
    left.or_better(late).or_better(right)
}
