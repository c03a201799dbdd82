ghost use Rattle.std.specs.Prelude.{◌≡◌, ℕ};
ghost use Rattle.envy_array.specs.Array.{Array, IsArray, undone, restarted, zeros};
ghost use Rattle.envy_array.specs.Step.{Command, Answer, Step};

/// To each command a plain array gives one answer and one array after it.
pub fn step_gives_one_answer()
    ensures some { (m : Array) (command : Command) → (answer : Answer) × (n : Array) × Step m command answer n }
    ensures one { (m n k : Array) (command : Command) (a b : Answer) → Step m command a n → Step m command b k → (a ≡ b)
        × (n ≡ k) }
{}

/// A step from an array leaves an array.
pub fn step_keeps_the_array()
    ensures { (m n : Array) (command : Command) (answer : Answer) → IsArray m → Step m command answer n → IsArray n }
{}

/// A failure of power leaves an array, whose words are undone already.
pub fn restart_keeps_the_array()
    ensures array { (m : Array) → IsArray m → IsArray (restarted m) }
    ensures undone { (m : Array) → undone (restarted m) ≡ undone m }
{}

/// An array of zeros with no slot open is an array.
pub fn zeros_are_an_array()
    ensures { (pages shadows : ℕ) → IsArray (zeros pages shadows) }
{}
