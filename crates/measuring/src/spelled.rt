//! The spacings that a program makes: that of three words, and that of cubes.
//! Which numbers are sides stands in the definitions.
ghost use Rattle.std.specs.Prelude.{◌≡◌, ◌≢◌, ◌∷◌, [], ℕ, MatchOption};
ghost use Rattle.std.specs.Fmt.{decimal};
ghost use Rattle.measure_terms.specs.Spacing as Terms;
ghost use Rattle.measure_terms.specs.Spacing.{unit_spacing, IsSide, IsSpacing, side_words};
ghost use Rattle.measuring.specs.Spaced.{spacing_told, told_or_unit};

use crate::spacing::Spacing;
use itoa::Buffer;
use shape_space::MOST_SPACING;

// The side that a word spells: the number from 1 to the greatest whose digits it has.
fn side_spelled(word: &[u8]) -> Option<u16>
    ensures { MatchOption result ((n : ℕ) → IsSide n → word.now ≢ decimal n)
        (λ n. IsSide n × (word.now ≡ decimal n)) }
{
    for n in 1..MOST_SPACING as u16 + 1 {
        let mut digits = Buffer::new();
        if digits.format(n).as_bytes() == word {
            return Some(n);
        }
    }
    None
}

impl Spacing {
    /// The spacing that three words spell.
    pub fn spelled(x: &[u8], y: &[u8], z: &[u8]) -> Option<Spacing>
        ensures { MatchOption result
            ((s : Terms.Spacing) → IsSpacing s → x.now ∷ y.now ∷ z.now ∷ [] ≢ side_words s)
            (λ s. IsSpacing (spacing_told s)
            × (x.now ∷ y.now ∷ z.now ∷ [] ≡ side_words (spacing_told s))) }
    {
        let x = side_spelled(x)?;
        let y = side_spelled(y)?;
        let z = side_spelled(z)?;
        Some(Spacing { x, y, z })
    }

    /// The spacing of cubes, whose sides are the unit.
    pub fn unit() -> Spacing
        ensures { spacing_told result ≡ unit_spacing }
    {
        Spacing { x: 1, y: 1, z: 1 }
    }

    /// A spacing where there is one, and else that of cubes.
    pub fn or_unit(spacing: Option<Spacing>) -> Spacing
        ensures { spacing_told result ≡ told_or_unit spacing }
    {
        match spacing {
            Some(spacing) => spacing,
            None => Spacing::unit(),
        }
    }
}
