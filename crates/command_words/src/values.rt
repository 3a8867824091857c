ghost use Rattle.std.specs.Prelude.{◌≡◌, ◌<◌, ◌≤◌, ◌↔◌, ◌∷◌, ◌++◌, [], ℕ, List, IsTrue, All, MatchOption, length};
ghost use Rattle.std.specs.Char.{IsAsciiDigit};
ghost use Rattle.agglo_model.specs.Axes.{Axes};
ghost use Rattle.agglo_model.specs.PairOrder.{Threshold as Fraction};
ghost use Rattle.command_words.specs.Words.{IsName, IsNumber, IsFraction, AreSizes, digits_number, SpellsAxes};
ghost use Rattle.command_words.specs.Parts.{IsWithout};

use mean_fraction::Threshold;
use seg_base::Dims;

/// The most digits that a number may have, leading zeros among them.
const MOST_DIGITS: usize = 10;

/// The greatest number of a fraction.
const GREATEST_NUMBER: u64 = 4_294_967_295;

/// The greatest size, in voxels.
const GREATEST_SIZE: u64 = 65_535;

/// Whether a word may name a file: it is not empty and does not begin with `-`.
pub fn is_name(word: &str) -> bool
    ensures { IsTrue result ↔ IsName word.now }
{
    match word.as_bytes() {
        [] => false,
        [first, ..] => *first != b'-',
    }
}

/// The number from `least` to `most` that one to ten digits spell.
pub fn parse_number(word: &str, least: u64, most: u64) -> Option<u64>
    ensures { MatchOption result (¬ (IsNumber least most word.now))
        (λ n. IsNumber least most word.now × (n ≡ digits_number word.now)) }
{
    if word.is_empty() || word.len() > MOST_DIGITS {
        return None;
    }
    let number = digits_value(word.as_bytes())?;
    if least <= number && number <= most {
        Some(number)
    } else {
        None
    }
}

/// The number that these digits spell, or nothing where one of them is no digit.
fn digits_value(digits: &[u8]) -> Option<u64>
    requires { length digits.now ≤ 10 }
    ensures { MatchOption result (¬ (All IsAsciiDigit digits.now))
        (λ n. All IsAsciiDigit digits.now × (n ≡ digits_number digits.now)) }
{
    let mut number: u64 = 0;
    for digit in digits {
        if !digit.is_ascii_digit() {
            return None;
        }
        number = 10 * number + u64::from(*digit - b'0');
    }
    Some(number)
}

/// The parts of a word before and after its first separator.
pub(crate) fn cut_at(word: &str, separator: char) -> Option<(&str, &str)>
    requires { separator < 128 }
    ensures { MatchOption result (IsWithout separator word.now)
        (λ parts. (word.now ≡ parts.0.now ++ separator ∷ parts.1.now) × IsWithout separator parts.0.now) }
{
    word.split_once(separator)
}

/// The fraction that two numbers with `/` between them spell.
pub fn parse_fraction(word: &str) -> Option<Threshold>
    ensures { MatchOption result ((t : Fraction) → ¬ (IsFraction word.now t)) (λ t. IsFraction word.now t) }
{
    let (above, below) = cut_at(word, '/')?;
    let p = parse_number(above, 0, GREATEST_NUMBER)?;
    let q = parse_number(below, 1, GREATEST_NUMBER)?;
    Threshold::new(p as u32, q as u32).ok()
}

/// The three sizes that numbers with `,` between them spell.
pub fn parse_sizes(word: &str) -> Option<[u32; 3]>
    ensures { MatchOption result ((sizes : List ℕ) → ¬ (AreSizes word.now sizes)) (λ sizes. AreSizes word.now sizes) }
{
    let (first, others) = cut_at(word, ',')?;
    let (second, third) = cut_at(others, ',')?;
    let x = parse_number(first, 1, GREATEST_SIZE)?;
    let y = parse_number(second, 1, GREATEST_SIZE)?;
    let z = parse_number(third, 1, GREATEST_SIZE)?;
    Some([x as u32, y as u32, z as u32])
}

/// The axes of a volume that three numbers with `,` between them spell.
pub fn parse_axes(word: &str) -> Option<Dims>
    ensures { MatchOption result ((axes : Axes) → ¬ (SpellsAxes word.now axes)) (λ axes. SpellsAxes word.now axes) }
{
    let [x, y, z] = parse_sizes(word)?;
    Dims::new(x, y, z).ok()
}
