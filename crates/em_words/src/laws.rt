//! What follows from the definitions.
ghost use Rattle.std.specs.Prelude.{◌≡◌, ◌∷◌, ℕ, List, Option, None};
ghost use Rattle.em_words.specs.Meaning.{job_of};
ghost use Rattle.em_words.specs.Number.{number_in};

/// No number and no command begins with a hyphen (45). So a word that does so is an option before `--`, or `--` itself, or the words are refused.
pub fn hyphen_law()
    ensures number { (least most : ℕ) (rest : List ℕ) → number_in least most (45 ∷ rest) ≡ None }
    ensures command { (rest : List ℕ) (count : Option (List ℕ)) → job_of (45 ∷ rest) count ≡ None }
{}
