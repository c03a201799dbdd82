ghost use Rattle.std.specs.Prelude.{◌≡◌, ◌⊎◌, ◌<◌, ◌≤◌};
ghost use Rattle.envy_calls.specs.Codes.{number_of};
ghost use Rattle.envy_calls.specs.declared.code.Code.{Code};

/// A number tells its answer. Further answers may have numbers from 64 to 79.
pub fn no_two_answers_share_a_number()
    ensures apart { (x y : Code) → number_of x ≡ number_of y → x ≡ y }
    ensures few { (x : Code) → (number_of x < 64) ⊎ (80 ≤ number_of x) }
{}
