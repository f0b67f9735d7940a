//! The numbers that words of a command line spell, each in one way.
//! No command and no picture occurs here.
ghost use Rattle.std.specs.Prelude.{MatchOption};
ghost use Rattle.report_text.specs.Reading.{ReadsNumberWord};
ghost use Rattle.shape_cli.specs.Numbers.{IsNoNumber, SpellsNumber, ReadsCoordinate};

use shape_desk::read_number;

// The number that a whole word spells.
fn number(word: &[u8]) -> Option<i64>
    ensures { ReadsNumberWord word.now result }
{
    let (value, len) = read_number(word)?;
    if len == word.len() { Some(value) } else { None }
}

// The coordinate that a word spells.
pub(crate) fn coordinate(word: &Vec<u8>) -> Option<i32>
    ensures { ReadsCoordinate word.now.items result }
{
    i32::try_from(number(word.as_slice())?).ok()
}

// The number in a range that a word spells.
pub(crate) fn number_in(word: &Vec<u8>, least: u32, most: u32) -> Option<u32>
    ensures { MatchOption result (IsNoNumber least most word.now.items)
        (SpellsNumber least most word.now.items) }
{
    let n = number(word.as_slice())?;
    if n < i64::from(least) {
        return None;
    }
    if n > i64::from(most) {
        return None;
    }
    Some(n as u32)
}
