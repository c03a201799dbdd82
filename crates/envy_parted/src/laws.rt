ghost use Rattle.std.specs.Prelude.{◌≡◌};
ghost use Rattle.envy_parted.specs.Codes.{number_of_part};
ghost use Rattle.envy_parted.specs.declared.code.PartCode.{PartCode};

/// A number tells its answer.
pub fn no_two_answers_share_a_number()
    ensures { (x y : PartCode) → number_of_part x ≡ number_of_part y → x ≡ y }
{
    envy_calls::no_two_answers_share_a_number();
}
