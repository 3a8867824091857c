//! Worked examples of words: each function has no body, and its contract is the claim.
ghost use Rattle.std.specs.Prelude.{◌≡◌, ◌∷◌, [], codes, true, false};
ghost use Rattle.std.specs.List.{flat_map};
ghost use Rattle.command_words.specs.Words.{digits_number, given_words};

/// Decimal digits spell a number, leading zeros or not.
pub fn numbers_of_digits()
    ensures plain { digits_number (codes "255") ≡ 255 }
    ensures zeros { digits_number (codes "007") ≡ 7 }
    ensures zero { digits_number (codes "0") ≡ 0 }
{}

/// An option is given by one word with a `=`, or by two words; a value may have a `=` in it.
pub fn words_of_options()
    ensures two { given_words (record { name = codes "low"; value = codes "1"; is_one_word = false })
        ≡ codes "--low" ∷ codes "1" ∷ [] }
    ensures one { given_words (record { name = codes "low"; value = codes "1"; is_one_word = true })
        ≡ codes "--low=1" ∷ [] }
    ensures both { given_words (record { name = codes "volume"; value = codes "a=b"; is_one_word = true })
        ≡ codes "--volume=a=b" ∷ [] }
{}
