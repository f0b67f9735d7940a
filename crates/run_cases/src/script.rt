//! The lines of cases, one after another: what each asks, and the files that they are about.
//! A further line is one more row of `take`.
use crate::case::Case;
use crate::changes::{Change, changed, lines_of};
use crate::escapes::unescaped;
use crate::faults::fail_each;
use crate::forging::{forge, judged, tell_fronts};
use std::alloc::Global;
use std::{io, mem};

// The files of a case.
#[derive(Clone, Copy)]
enum Name {
    A,
    B,
}

/// What the lines up to here laid down.
#[derive(Drop)]
pub(crate) struct Script {
    alloc: Global,
    case: Case,
    written: Vec<u8>,
    // the file that was laid last, and the one whose lines follow, up to a line `.`
    last: Name,
    open: Option<Name>,
}

// The place of a line, whose number from 1 on stands in front of a text, and the text.
fn numbered(text: &str) -> (usize, &str) {
    let (number, text) = text.split_once(' ').unwrap_or((text, ""));
    let number: usize = number.parse().unwrap_or(0);
    (number.saturating_sub(1), text)
}

impl Script {
    /// Before the first line: two empty files.
    pub(crate) fn new(alloc: Global) -> Script {
        Script {
            alloc,
            case: Case {
                words: String::new(alloc),
                a: Vec::new(alloc),
                b: Vec::new(alloc),
            },
            written: Vec::new(alloc),
            last: Name::A,
            open: None,
        }
    }

    /// Takes the next line, and tells what it comes to.
    pub(crate) fn take(&mut self, rt: &impl Print, line: &str) -> io::Result<()> {
        if let Some(name) = self.open {
            return self.take_text(name, line);
        }
        let (word, rest) = line.split_once(' ').unwrap_or((line, ""));
        match word {
            "a" => self.lay(Name::A, rest),
            "b" => self.lay(Name::B, rest),
            "more" => self.lay_more(rest),
            "keep" => self.keep(),
            "set" => self.set(rest),
            "run" => self.run(rt, rest),
            "count" => self.count(rt, rest),
            "change" | "drop" | "twice" => self.change(rt, line),
            "forge" => forge(rt, self.alloc, &self.case),
            "fronts" => tell_fronts(rt, self.alloc, &self.case),
            "faults" => fail_each(rt, self.alloc, &self.case, rest.parse().unwrap_or(1)),
            _ => println!(rt; "{line}"),
        }
    }

    // A line of the file that is open.
    fn take_text(&mut self, name: Name, line: &str) -> io::Result<()> {
        if line == "." {
            self.open = None;
            return Ok(());
        }
        let file = match name {
            Name::A => &mut self.case.a,
            Name::B => &mut self.case.b,
        };
        file.extend_from_slice(line.as_bytes())?;
        Ok(file.push(b'\n')?)
    }

    // A file has this text, with escapes and without a line feed; where there is no text, its lines follow as they stand.
    fn lay(&mut self, name: Name, text: &str) -> io::Result<()> {
        let bytes = unescaped(self.alloc, text.as_bytes())?;
        match name {
            Name::A => self.case.a = bytes,
            Name::B => self.case.b = bytes,
        }
        self.last = name;
        self.open = if text.is_empty() { Some(name) } else { None };
        Ok(())
    }

    // The file that was laid last has a text behind it, so many times as the number in front of the text says.
    fn lay_more(&mut self, rest: &str) -> io::Result<()> {
        let (count, text) = rest.split_once(' ').unwrap_or((rest, ""));
        let bytes = unescaped(self.alloc, text.as_bytes())?;
        let count: usize = count.parse().unwrap_or(1);
        let file = match self.last {
            Name::A => &mut self.case.a,
            Name::B => &mut self.case.b,
        };
        for _ in 0..count {
            file.extend_from_slice(bytes.as_slice())?;
        }
        Ok(())
    }

    // The file `b` has what the last run wrote.
    fn keep(&mut self) -> io::Result<()> {
        self.case.b = self.written.as_slice().to_vec(self.alloc)?;
        self.last = Name::B;
        Ok(())
    }

    // The line of `b` with the number in front of this text is replaced by what stands behind it.
    fn set(&mut self, text: &str) -> io::Result<()> {
        let (at, line) = numbered(text);
        let b = mem::replace(&mut self.case.b, Vec::new(self.alloc));
        let lines = lines_of(self.alloc, b.as_slice())?;
        self.case.b = changed(self.alloc, lines.as_slice(), at, Change::Replaced(line))?;
        Ok(())
    }

    // Runs words, and tells what was written and how it ended.
    fn run(&mut self, rt: &impl Print, words: &str) -> io::Result<()> {
        self.case.words = String::from_str(self.alloc, words)?;
        let answer = self.case.run(self.alloc)?;
        let written = answer.text.as_slice();
        match str::from_utf8(written) {
            Ok(text) if !written.contains(&0) => print!(rt; "> {words}\n{text}")?,
            _ => println!(rt; "> {words}\n{written:?}")?,
        }
        println!(rt; "= {}", answer.end)?;
        self.written = answer.text;
        Ok(())
    }

    // Runs words, and tells how many lines were written and how it ended.
    fn count(&mut self, rt: &impl Print, words: &str) -> io::Result<()> {
        self.case.words = String::from_str(self.alloc, words)?;
        let answer = self.case.run(self.alloc)?;
        let lines = lines_of(self.alloc, answer.text.as_slice())?.len();
        println!(rt; "> {words}\n= {}, {lines} lines", answer.end)?;
        self.written = answer.text;
        Ok(())
    }

    // Tells what the last words say of a report with one change, at the line that is told behind the word.
    fn change(&self, rt: &impl Print, line: &str) -> io::Result<()> {
        let (word, rest) = line.split_once(' ').unwrap_or((line, ""));
        let (at, text) = numbered(rest);
        let change = match word {
            "drop" => Change::LeftOut,
            "twice" => Change::Doubled,
            _ => Change::Replaced(text),
        };
        let lines = lines_of(self.alloc, self.case.b.as_slice())?;
        let said = judged(self.alloc, &self.case, lines.as_slice(), at, change)?;
        println!(rt; "{line}: {said}")
    }
}
