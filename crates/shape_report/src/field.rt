//! The fields that reports of pictures have beside those of all texts: numbers of reports, names of rules and senses.
//! A further such field is a function that reads it and one that puts it; which fields a line has is told in `read` and `spell`.
ghost use Rattle.std.specs.Prelude.{◌≡◌, ◌≤◌, ◌+◌, ◌++◌, length};
ghost use Rattle.text_terms.specs.Forms.{name};
ghost use Rattle.report_terms.specs.Forms.{IsNumber, number, sign};
ghost use Rattle.shape_rules.specs.Names.{word_of};
ghost use Rattle.shape_refute.specs.Senses.{sense_of};
ghost use Rattle.report_text.specs.Reading.{ReadsForm};
ghost use Rattle.report_text.specs.Spelling.{behind_blanks};

use report_text::{Text, Words};
use shape_refute::Sense;
use shape_rules::Name;
use shape_space::Point;

// Reads the number of a report of pictures whose points are of type `P`.
pub(crate) fn number<P: Point>(words: &mut Words) -> Option<u8>
    ensures { ReadsForm (λ n. n) (number P.DIM) words.old words.new result }
{
    match words.next_word()? {
        b"1" => Some(1),
        b"2" => { if P::DIM == 2 { Some(2) } else { None } }
        _ => None,
    }
}

// Reads a name.
pub(crate) fn name(words: &mut Words) -> Option<Name>
    ensures { ReadsForm word_of name words.old words.new result }
{
    Name::new(words.next_word()?)
}

// Reads the sign of a sense.
pub(crate) fn sense(words: &mut Words) -> Option<Sense>
    ensures { ReadsForm sense_of sign words.old words.new result }
{
    match words.next_word()? {
        b"-" => Some(Sense::Minus),
        b"+" => Some(Sense::Plus),
        _ => None,
    }
}

// Puts the number of a report behind a blank.
pub(crate) fn put_number<P: Point>(n: u8, text: &mut Text)
    requires room { length text.old + 21 ≤ 1024 }
    requires number { IsNumber P.DIM n }
    ensures text { text.new ≡ text.old ++ behind_blanks ((number P.DIM).words n) }
    ensures room { length text.new ≤ length text.old + 21 }
{
    text.count(u32::from(n))
}

// Puts the sign of a sense behind a blank.
pub(crate) fn put_sense(sense: Sense, text: &mut Text)
    requires { length text.old + 2 ≤ 1024 }
    ensures text { text.new ≡ text.old ++ behind_blanks (sign.words (sense_of sense)) }
    ensures room { length text.new ≤ length text.old + 2 }
{
    match sense {
        Sense::Minus => text.put(b" -"),
        Sense::Plus => text.put(b" +"),
    }
}
