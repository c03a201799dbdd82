ghost use Rattle.std.specs.Prelude.{◌≡◌};
ghost use Rattle.envy_places.specs.Codes.{number_of_place};
ghost use Rattle.envy_places.specs.declared.code.PlaceCode.{PlaceCode};

/// A number tells its answer.
pub fn no_two_answers_share_a_number()
    ensures { (x y : PlaceCode) → number_of_place x ≡ number_of_place y → x ≡ y }
{
    envy_calls::no_two_answers_share_a_number();
}
