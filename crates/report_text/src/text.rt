//! A text of at most 1024 bytes as it grows, word by word and field by field.
//! A further kind of field is one more function here; which fields a line has, its kind of report says.
ghost use Rattle.std.specs.Prelude.{◌≡◌, ◌≤◌, ◌<◌, ◌+◌, ◌++◌, [], ◌∷◌, length, take, OnOk, OnErr};
ghost use Rattle.std.specs.Int.{w32, w64};
ghost use Rattle.std.specs.Fmt.{signed_decimal};
ghost use Rattle.text_terms.specs.Forms.{natural, signed, axis_letter, letter};
ghost use Rattle.text_terms.specs.Fields.{count, weight, point, row};
ghost use Rattle.report_text.specs.Spelling.{behind_blanks};

use shape_desk::{put_number_behind_blank, put_word};
use shape_space::{NoMemory, Point};
use std::marker::Model;

// A line that is shorter than this is copied with what stands behind it.
const SHORT: usize = 32;

// The greatest number of bytes of a text.
pub(crate) const MOST: usize = 1024;

/// A text of at most 1024 bytes.
#[derive(Drop)]
pub struct Text {
    bytes: [u8; 1024],
    len: usize,
}

impl Model for Text {
    ghost use Rattle.std.specs.Prelude.{◌≡◌, ◌≤◌, ℕ, List, length, take};

    ghost Value = { List ℕ };

    ghost view = { λ t. take t.len t.bytes };

    ghost invariant = { λ t. (t.len ≤ 1024) × (length t.bytes ≡ 1024) };
}

// Puts a line with an LF behind bytes; these stay as they were where memory is wanting.
fn put_longer_behind(line: &[u8], bytes: &mut Vec<u8>) -> Result<(), NoMemory>
    ensures ok { OnOk result (bytes.new.items ≡ bytes.old.items ++ (line.now ++ 10 ∷ [])) }
    ensures err { OnErr result (bytes.new.items ≡ bytes.old.items) }
{
    let before = bytes.len();
    bytes.extend_from_slice(line)?;
    if bytes.push(b'\n').is_err() {
        bytes.truncate(before);
        return Err(NoMemory);
    }
    Ok(())
}

impl Text {
    /// No text.
    pub fn new() -> Text
        ensures { result ≡ [] }
    {
        Text {
            bytes: [0; 1024],
            len: 0,
        }
    }

    /// Takes all bytes away.
    #[inline(always)]
    pub fn clear(&mut self)
        ensures { self.new ≡ [] }
    {
        self.len = 0;
    }

    /// The bytes so far.
    #[inline(always)]
    pub fn bytes(&self) -> &[u8]
        ensures text { result.now ≡ self.now }
        ensures room { length result.now ≤ 1024 }
    {
        &self.bytes[..self.len]
    }

    /// Copies the text with an LF to a place of a page that has room for the longest there, and answers the place behind them.
    ///
    /// Most lines are short: so many bytes are copied at once that they are among them, for less than it costs to copy as
    /// many as there are. What then stands behind the LF counts for nothing.
    #[inline(always)]
    pub(crate) fn put_line_on(&self, page: &mut [u8], at: usize) -> usize
        requires { at + 1025 ≤ length page.old }
        ensures place { result ≡ at + length self.now + 1 }
        ensures line { take result page.new ≡ take at page.old ++ (self.now ++ 10 ∷ []) }
        ensures length { length page.new ≡ length page.old }
    {
        if self.len < SHORT {
            let end = at + self.len;
            page[at..at + SHORT].copy_from_slice(&self.bytes[..SHORT]);
            page[end] = b'\n';
            return end + 1;
        }
        let end = put_word(self.bytes(), page, at);
        put_word(b"\n", page, end)
    }

    /// Copies the text with an LF behind bytes; these stay as they were where memory is wanting.
    ///
    /// A short one is copied as it is to a page, and what stands behind its LF is taken away again.
    #[inline(always)]
    pub(crate) fn put_line_behind(&self, bytes: &mut Vec<u8>) -> Result<(), NoMemory>
        ensures ok { OnOk result (bytes.new.items ≡ bytes.old.items ++ (self.now ++ 10 ∷ [])) }
        ensures err { OnErr result (bytes.new.items ≡ bytes.old.items) }
    {
        if self.len >= SHORT {
            return put_longer_behind(self.bytes(), bytes);
        }
        let end = bytes.len() + self.len;
        bytes.extend_from_slice(&self.bytes[..SHORT])?;
        bytes[end] = b'\n';
        bytes.truncate(end + 1);
        Ok(())
    }

    /// Puts bytes behind those before.
    #[inline(always)]
    pub fn put(&mut self, word: &[u8])
        requires { length self.old + length word.now ≤ 1024 }
        ensures { self.new ≡ self.old ++ word.now }
    {
        self.len = put_word(word, &mut self.bytes, self.len);
    }

    // Puts a number behind a blank.
    #[inline(always)]
    fn number(&mut self, n: i64)
        requires { length self.old + 21 ≤ 1024 }
        ensures text { self.new ≡ self.old ++ 32 ∷ signed_decimal n }
        ensures room { length self.new ≤ length self.old + 21 }
    {
        self.len = put_number_behind_blank(n, &mut self.bytes, self.len);
    }

    /// Puts a count behind a blank.
    #[inline(always)]
    pub fn count(&mut self, n: u32)
        requires { length self.old + 21 ≤ 1024 }
        ensures text { self.new ≡ self.old ++ behind_blanks (count.words n) }
        ensures room { length self.new ≤ length self.old + 21 }
    {
        self.number(i64::from(n))
    }

    /// Puts a weight behind a blank.
    #[inline(always)]
    pub fn weight(&mut self, n: u64)
        requires room { length self.old + 21 ≤ 1024 }
        requires range { weight.InRange n }
        ensures text { self.new ≡ self.old ++ behind_blanks (weight.words n) }
        ensures room { length self.new ≤ length self.old + 21 }
    {
        self.number(n as i64)
    }

    /// Puts each coordinate of a point behind a blank.
    #[inline(always)]
    pub fn point<P: Point>(&mut self, p: P)
        requires { length self.old + 63 ≤ 1024 }
        ensures text { self.new ≡ self.old ++ behind_blanks ((point P.DIM).words (P.coords p)) }
        ensures room { length self.new ≤ length self.old + 63 }
    {
        for k in 0..P::DIM {
            self.number(i64::from(p.coord(k)));
        }
    }

    /// Puts a number of 64 bits behind a blank.
    pub fn signed(&mut self, n: i64)
        requires { length self.old + 21 ≤ 1024 }
        ensures text { self.new ≡ self.old ++ behind_blanks ((signed w64 63).words n) }
        ensures room { length self.new ≤ length self.old + 21 }
    {
        self.number(n)
    }

    /// Puts the number of a side of a pixel behind a blank.
    pub fn side(&mut self, n: u8)
        requires { length self.old + 21 ≤ 1024 }
        ensures text { self.new ≡ self.old ++ behind_blanks ((natural 4).words n) }
        ensures room { length self.new ≤ length self.old + 21 }
    {
        self.number(i64::from(n))
    }

    /// Puts the letter of an axis.
    pub fn letter(&mut self, axis: u8)
        requires room { length self.old + 1 ≤ 1024 }
        requires axis { axis < 3 }
        ensures text { self.new ≡ self.old ++ axis_letter axis ∷ [] }
        ensures room { length self.new ≤ length self.old + 1 }
    {
        self.put(&[b'x' + axis])
    }

    /// Puts the letter of an axis behind a blank.
    pub fn axis(&mut self, axis: u8)
        requires room { length self.old + 2 ≤ 1024 }
        requires axis { axis < 3 }
        ensures text { self.new ≡ self.old ++ behind_blanks ((letter 3).words axis) }
        ensures room { length self.new ≤ length self.old + 2 }
    {
        self.put(b" ");
        self.letter(axis)
    }

    /// Puts the coefficients of a plane, each behind a blank.
    pub fn solid_coefficients(&mut self, a: &[i64; 3])
        requires { length self.old + 63 ≤ 1024 }
        ensures text { self.new ≡ self.old ++ behind_blanks ((row 3).words (take 3 a.now)) }
        ensures room { length self.new ≤ length self.old + 63 }
    {
        self.number(a[0]);
        self.number(a[1]);
        self.number(a[2])
    }

    /// Puts the coefficients of a line of the plane, each behind a blank.
    pub fn flat_coefficients(&mut self, a: &[i64; 3])
        requires { length self.old + 42 ≤ 1024 }
        ensures text { self.new ≡ self.old ++ behind_blanks ((row 2).words (take 2 a.now)) }
        ensures room { length self.new ≤ length self.old + 42 }
    {
        self.number(a[0]);
        self.number(a[1])
    }
}
