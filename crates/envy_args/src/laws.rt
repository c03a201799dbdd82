ghost use Rattle.std.specs.Prelude.{◌≡◌, ◌↔◌, ℕ, None, [], ◌∷◌, codes, Ok, Err, IsTrue};
ghost use Rattle.envy_array.specs.Area.{Fits};
ghost use Rattle.envy_array.specs.declared.area.Area.{Area};
ghost use Rattle.envy_policy.specs.declared.setup.Policy.TheVariants.{Greedy};
ghost use Rattle.envy_args.specs.declared.command.Command.TheVariants.{Run, Resume, Audit, Map};
ghost use Rattle.envy_args.specs.declared.command.WordsFault.TheVariants.{Form, Setup as Rule};
ghost use Rattle.envy_args.specs.Words.{command_of, fits, usual};

use crate::read::USUAL_ROWS;

/// The test by which the rule of the area is asked is that the records fit.
pub fn the_area_is_asked_to_fit()
    ensures { (area : Area) (pages : ℕ) → IsTrue (fits area pages) ↔ Fits area pages }
{}

/// Words and the commands that they name.
pub fn words_name_commands()
    ensures alone { command_of (codes "run" ∷ [])
        ≡ Ok (Run (record { shape = usual; policy = Greedy; limit = 100; mark = 8 }) 4294967295) }
    ensures unknown { command_of (codes "fly" ∷ []) ≡ Err Form }
    ensures twice { command_of (codes "run" ∷ codes "--rows" ∷ codes "16" ∷ codes "--rows" ∷ codes "16" ∷ [])
        ≡ Err Form }
    ensures share { command_of (codes "run" ∷ codes "--pages" ∷ codes "81" ∷ []) ≡ Err (Rule 6) }
    ensures reserved { (command_of (codes "run" ∷ codes "--reserves" ∷ codes "2" ∷ []) ≡ Err (Rule 6))
        × (command_of (codes "run" ∷ codes "--segments=12" ∷ codes "--reserves=2" ∷ [])
        ≡ Ok (Run (record { shape = record usual { segments = 12; reserves = 2 }; policy = Greedy; limit = 100; mark = 8 }) 4294967295)) }
    ensures reserves { command_of (codes "run" ∷ codes "--reserves" ∷ codes "5" ∷ codes "--rows=1" ∷ []) ≡ Err (Rule 18) }
    ensures unreserved { command_of (codes "plain" ∷ codes "--reserves" ∷ codes "0" ∷ []) ≡ Err Form }
    ensures pages { command_of (codes "run" ∷ codes "--pages=0" ∷ codes "--" ∷ []) ≡ Err (Rule 3) }
    ensures total { command_of (codes "run" ∷ codes "--segments" ∷ codes "17" ∷ codes "--rows=65536" ∷ [])
        ≡ Err (Rule 7) }
    ensures large { (command_of (codes "run" ∷ codes "--segments" ∷ codes "17" ∷ codes "--rows=65536" ∷ codes "--large=1" ∷ [])
        ≡ Ok (Run (record { shape = record usual { segments = 17; rows = 65536 }; policy = Greedy; limit = 100; mark = 8 }) 4294967295))
        × (command_of (codes "run" ∷ codes "--segments" ∷ codes "257" ∷ codes "--rows=65536" ∷ codes "--large=1" ∷ [])
        ≡ Err (Rule 17)) }
    ensures transfers { command_of (codes "tpca" ∷ codes "--transfers" ∷ codes "1070" ∷ []) ≡ Err (Rule 11) }
    ensures judged { (command_of (codes "audit" ∷ []) ≡ Ok (Audit USUAL_ROWS))
        × (command_of (codes "map" ∷ []) ≡ Ok (Map USUAL_ROWS)) }
    ensures open { command_of (codes "resume" ∷ []) ≡ Ok (Resume Greedy 100 None 4294967295 USUAL_ROWS) }
    ensures tree { command_of (codes "index" ∷ codes "--pages=19" ∷ codes "--shadows=31" ∷ []) ≡ Err (Rule 13) }
    ensures heap { command_of (codes "index" ∷ codes "--pages=19" ∷ []) ≡ Err (Rule 14) }
    ensures shadows { command_of (codes "tpca" ∷ codes "--shadows" ∷ codes "4" ∷ []) ≡ Err (Rule 12) }
{}
