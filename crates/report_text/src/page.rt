//! A page of a report as it is told: lines gather on it, and it goes to the desk when the next one does not fit.
//! Another size of a page is a change here alone; it has to hold the longest line.
ghost use Rattle.std.specs.Prelude.{◌≡◌, ◌≤◌, ◌+◌, ◌++◌, [], ◌∷◌, ℕ, List, Some, IfOk, IfSome, length, take, option_map};
ghost use Rattle.text_terms.specs.Spellings.{line_text};
ghost use Rattle.shape_desk.specs.Desk.{DeskState, WritesText};
ghost use Rattle.report_text.specs.Telling.{IsTelling, TellsMore};

use crate::line::ReportLine;
use crate::report::WriteFault;
use crate::text::{MOST, Text};
use shape_desk::{Desk, put_all};
use shape_space::NoMemory;
use std::alloc::Global;
use std::marker::Model;

// The number of bytes of a page.
const PAGE: usize = 65536;

/// A page of a report as it is told.
///
/// Its memory is taken when it is made. Once a write failed it takes lines as before and writes nothing more; `finish`
/// tells of it.
#[derive(Drop)]
pub struct Page {
    bytes: Vec<u8>,
    // How many bytes wait to be written; none once a write failed.
    filled: Option<usize>,
    // The line that was told last, as it is spelled.
    line: Text,
}

impl Model for Page {
    ghost use Rattle.std.specs.Prelude.{◌≡◌, ◌≤◌, ℕ, List, Option, IfSome, take, option_map};

    ghost Value = { Option (List ℕ) };

    ghost view = { λ p. option_map (λ n. take n p.bytes.items) p.filled };

    ghost invariant = { λ p. (p.bytes.len ≡ 65536) × IfSome p.filled (λ n. n ≤ 65536) };
}

// Writes bytes that wait, and answers that none waits then; nothing once a write failed.
#[inline(never)]
fn write_out<D: Desk>(waiting: &[u8], desk: &mut D) -> Option<usize>
    ensures telling { TellsMore [] (Some waiting.now) (option_map (λ n. []) result)
        (D.state desk.old) (D.state desk.new) }
    ensures none { IfSome result (λ n. n ≡ 0) }
{
    match put_all(waiting, desk) {
        Ok(()) => Some(0),
        Err(_) => None,
    }
}

// Where so many bytes may stand on a page of which a front waits: behind that, or at the front once that was written.
#[inline(always)]
fn place_on<D: Desk>(page: &[u8], filled: usize, count: usize, desk: &mut D) -> Option<usize>
    requires within { filled ≤ length page.now }
    requires fits { count ≤ length page.now }
    ensures room { IfSome result (λ at. at + count ≤ length page.now) }
    ensures telling { TellsMore [] (Some (take filled page.now))
        (option_map (λ at. take at page.now) result) (D.state desk.old) (D.state desk.new) }
{
    if count <= page.len() - filled {
        return Some(filled);
    }
    write_out(&page[..filled], desk)
}

// Puts a line with its LF on a page of which a front waits, and answers how much waits then. A page that has no room for the
// longest line is written before.
#[inline(always)]
fn put_line<D: Desk>(line: &Text, page: &mut [u8], filled: usize, desk: &mut D) -> Option<usize>
    requires size { length page.old ≡ 65536 }
    requires within { filled ≤ 65536 }
    ensures within { IfSome result (λ n. n ≤ 65536) }
    ensures size { length page.new ≡ 65536 }
    ensures telling { TellsMore (line.now ++ 10 ∷ []) (Some (take filled page.old))
        (option_map (λ n. take n page.new) result) (D.state desk.old) (D.state desk.new) }
{
    let at = place_on(page, filled, MOST + 1, desk)?;
    Some(line.put_line_on(page, at))
}

// Writes what waits on a page, and then a text; none of it waits then.
fn put_text<D: Desk>(text: &[u8], waiting: &[u8], desk: &mut D) -> Option<usize>
    ensures telling { TellsMore text.now (Some waiting.now) (option_map (λ n. []) result)
        (D.state desk.old) (D.state desk.new) }
    ensures none { IfSome result (λ n. n ≡ 0) }
{
    write_out(waiting, desk)?;
    write_out(text, desk)
}

impl Page {
    /// A page that holds nothing.
    pub fn new(alloc: Global) -> Result<Page, NoMemory>
        ensures { IfOk result (λ page. (d : DeskState) → IsTelling d [] page d) }
    {
        let bytes = vec![in alloc; 0; PAGE]?;
        Ok(Page {
            bytes,
            filled: Some(0),
            line: Text::new(),
        })
    }

    /// Tells a line.
    #[inline(always)]
    pub fn line<L: ReportLine, D: Desk>(&mut self, line: &L, desk: &mut D)
        requires { L.form.IsLine (L.seen line.now) }
        ensures { TellsMore (line_text L.form (L.seen line.now)) self.old self.new
            (D.state desk.old) (D.state desk.new) }
    {
        if let Some(filled) = self.filled {
            line.spell(&mut self.line);
            self.filled = put_line(&self.line, &mut self.bytes, filled, desk);
        }
    }

    /// Tells a text, which may be of any length.
    pub fn text<D: Desk>(&mut self, text: &[u8], desk: &mut D)
        ensures { TellsMore text.now self.old self.new (D.state desk.old) (D.state desk.new) }
    {
        if let Some(filled) = self.filled {
            self.filled = put_text(text, &self.bytes[..filled], desk);
        }
    }

    /// Writes what the page holds. Whatever was told is written then, or a write failed and a front of it is.
    pub fn finish<D: Desk>(self, desk: &mut D) -> Result<(), WriteFault>
        ensures { (begun : DeskState) (text : List ℕ) → IsTelling begun text self (D.state desk.old)
            → WritesText text begun (D.state desk.new) result }
    {
        let Some(filled) = self.filled else {
            return Err(WriteFault);
        };
        match write_out(&self.bytes[..filled], desk) {
            Some(_) => Ok(()),
            None => Err(WriteFault),
        }
    }
}
