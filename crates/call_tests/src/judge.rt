// What each row of a file does, and whether what it wants is so.
use crate::asks::asked;
use crate::calls::{Case, words_of};
use crate::names::{Names, parted};
use crate::rows::Row;
use std::alloc::{AllocError, Global};
use std::sync::Wait;
use std::thread::Threads;

/// What a row comes to.
#[derive(Clone, Copy, PartialEq, Eq)]
pub enum Verdict {
    /// It is done, or is as is wanted.
    Met,
    /// It isn't as is wanted.
    Wrong,
    /// It says nothing that could be done.
    Unread,
}

/// Parts of which one has to be met whole.
#[derive(Clone, Copy)]
struct Parts {
    /// Whether the part that is read was met so far.
    this: bool,
    /// Whether one before it was met.
    any: bool,
}

/// Goes through the rows of a file.
#[derive(Drop)]
pub struct Judge {
    alloc: Global,
    names: Names,
    case: Case,
    title: String,
    cases: u32,
    /// What the last line of words that was asked about asks for.
    asked: String,
    parts: Option<Parts>,
}

fn met_if(is_met: bool) -> Verdict {
    if is_met { Verdict::Met } else { Verdict::Wrong }
}

// Whether lines of text may stand behind a row of this word.
fn takes_text(word: &str) -> bool {
    match word {
        "text" | "file" | "has" | "begins" | "prints" | "says" => true,
        _ => false,
    }
}

fn number_is(told: &str, found: Option<u32>) -> Verdict {
    match (told.parse::<u32>(), found) {
        (Ok(number), Some(found)) => met_if(number == found),
        (Ok(_), None) => Verdict::Wrong,
        (Err(_), _) => Verdict::Unread,
    }
}

fn is_same(content: Option<&[u8]>, bytes: &[u8]) -> bool {
    match content {
        Some(content) => content == bytes,
        None => false,
    }
}

fn begins(content: Option<&[u8]>, front: &[u8]) -> bool {
    match content {
        Some(content) => content.starts_with(front),
        None => false,
    }
}

impl Judge {
    /// Before the first row.
    pub fn new(alloc: Global) -> Judge {
        Judge {
            alloc,
            names: Names::new(alloc),
            case: Case::new(alloc, Vec::new(alloc)),
            title: String::new(alloc),
            cases: 0,
            asked: String::new(alloc),
            parts: None,
        }
    }

    /// The title of the case that is gone through.
    pub fn title(&self) -> &str {
        self.title.as_str()
    }

    /// Whether parts are gone through, of which one has to be met.
    pub fn is_open(&self) -> bool {
        self.parts.is_some()
    }

    /// How many cases were begun.
    pub fn cases(&self) -> u32 {
        self.cases
    }

    /// Does what a row says.
    pub fn judge<R: Threads + Wait + Clone + Send + Sync + Drop + 'static>(
        &mut self,
        threads: &R,
        row: &Row,
    ) -> Result<Verdict, AllocError> {
        if !row.block.is_empty() && !takes_text(row.word) {
            return Ok(Verdict::Unread);
        }
        match row.word {
            "case" => self.begin(row.rest),
            "asks" => self.ask(row),
            "text" | "frame" => self.name(row),
            "fails" | "file" | "hex" | "capture" | "many" | "byte" | "cut" => self.put(row),
            "call" | "holds" | "meets" | "shut" => self.call(threads, row),
            "either" | "or" | "end" => Ok(self.part(row.word)),
            _ => {
                let verdict = self.want(row)?;
                Ok(self.within_parts(verdict))
            }
        }
    }

    fn begin(&mut self, title: &str) -> Result<Verdict, AllocError> {
        self.title = String::from_str(self.alloc, title)?;
        self.case = Case::new(self.alloc, Vec::new(self.alloc));
        self.cases = self.cases.saturating_add(1);
        Ok(self.close_parts())
    }

    // Ends parts whose end isn't told, so that what isn't met in them is passed over no further.
    fn close_parts(&mut self) -> Verdict {
        let is_open = self.is_open();
        self.parts = None;
        if is_open {
            Verdict::Unread
        } else {
            Verdict::Met
        }
    }

    // The words of a row's line: none where its word stands alone.
    fn words(&self, row: &Row) -> Result<Vec<String>, AllocError> {
        if row.is_alone {
            Ok(Vec::new(self.alloc))
        } else {
            words_of(self.alloc, row.rest)
        }
    }

    fn ask(&mut self, row: &Row) -> Result<Verdict, AllocError> {
        let words = self.words(row)?;
        self.title = String::from_str(self.alloc, row.rest)?;
        self.asked = asked(self.alloc, words.as_slice())?;
        self.cases = self.cases.saturating_add(1);
        Ok(self.close_parts())
    }

    fn call<R: Threads + Wait + Clone + Send + Sync + Drop + 'static>(
        &mut self,
        threads: &R,
        row: &Row,
    ) -> Result<Verdict, AllocError> {
        if row.word == "holds" {
            return self.hold(threads, row.rest);
        }
        let words = self.words(row)?;
        match row.word {
            "meets" => {
                let met = self
                    .case
                    .call_meeting(threads, self.alloc, words.as_slice())?;
                return Ok(met_if(met));
            }
            "shut" => self.case.call_shut(threads, self.alloc, words.as_slice())?,
            _ => self.case.call(threads, self.alloc, words.as_slice())?,
        }
        Ok(Verdict::Met)
    }

    // A call of two workers, the first of which is held until the other has handled so many packets.
    fn hold<R: Threads + Wait + Clone + Send + Sync + Drop + 'static>(
        &mut self,
        threads: &R,
        told: &str,
    ) -> Result<Verdict, AllocError> {
        let (count, line) = parted(told);
        let Ok(count) = count.parse::<u64>() else {
            return Ok(Verdict::Unread);
        };
        let words = words_of(self.alloc, line)?;
        let held = self
            .case
            .call_held(threads, self.alloc, words.as_slice(), count)?;
        Ok(met_if(held))
    }

    // The bytes that a row tells behind a name, in the form of its word.
    fn told(
        &self,
        word: &str,
        name: &str,
        told: &str,
        block: &[u8],
    ) -> Result<Option<Vec<u8>>, AllocError> {
        match word {
            "text" | "file" | "has" | "begins" => self.names.content(told, block),
            "frame" | "hex" | "hexed" => self.names.spelled(told),
            "capture" | "sent" => self.names.capture(told),
            "many" => self.names.many(told),
            "byte" => self.case.changed(self.alloc, name, told),
            "cut" => self.case.first(self.alloc, name, told),
            _ => Ok(None),
        }
    }

    fn name(&mut self, row: &Row) -> Result<Verdict, AllocError> {
        let (name, told) = parted(row.rest);
        match self.told(row.word, name, told, row.block.as_slice())? {
            Some(bytes) => {
                self.names.put(name, bytes)?;
                Ok(Verdict::Met)
            }
            None => Ok(Verdict::Unread),
        }
    }

    fn put(&mut self, row: &Row) -> Result<Verdict, AllocError> {
        if row.word == "fails" {
            return self.fail(row.rest);
        }
        let (name, told) = parted(row.rest);
        match self.told(row.word, name, told, row.block.as_slice())? {
            Some(bytes) => {
                self.case.put(name, bytes.as_slice())?;
                Ok(Verdict::Met)
            }
            None => Ok(Verdict::Unread),
        }
    }

    fn fail(&mut self, numbers: &str) -> Result<Verdict, AllocError> {
        let mut fails = Vec::new(self.alloc);
        for word in numbers.split(' ') {
            match word.parse::<u64>() {
                Ok(number) => fails.push(number)?,
                Err(_) => return Ok(Verdict::Unread),
            }
        }
        self.case = Case::new(self.alloc, fails);
        Ok(Verdict::Met)
    }

    // Begins a part of those of which one has to be met, or ends them.
    fn part(&mut self, word: &str) -> Verdict {
        let begun = Parts {
            this: true,
            any: false,
        };
        match (word, self.parts) {
            ("either", None) => {
                self.parts = Some(begun);
                Verdict::Met
            }
            ("or", Some(parts)) => {
                self.parts = Some(Parts {
                    this: true,
                    any: parts.any || parts.this,
                });
                Verdict::Met
            }
            ("end", Some(parts)) => {
                self.parts = None;
                met_if(parts.any || parts.this)
            }
            _ => Verdict::Unread,
        }
    }

    // Inside of parts what isn't met is no fault before their end.
    fn within_parts(&mut self, verdict: Verdict) -> Verdict {
        match (self.parts, verdict) {
            (Some(parts), Verdict::Wrong) => {
                self.parts = Some(Parts {
                    this: false,
                    any: parts.any,
                });
                Verdict::Met
            }
            _ => verdict,
        }
    }

    fn want(&mut self, row: &Row) -> Result<Verdict, AllocError> {
        match row.word {
            "for" => Ok(met_if(self.asked.as_str() == row.rest)),
            "status" => Ok(number_is(row.rest, self.case.status())),
            "left" => Ok(number_is(row.rest, Some(self.case.left()))),
            "opened" => {
                let opened = self.case.opened()?;
                Ok(number_is(row.rest, opened))
            }
            "prints" | "says" => self.want_printed(row),
            "none" => Ok(met_if(self.case.content(row.rest).is_none())),
            "same" => Ok(self.are_same(row.rest)),
            "names" => Ok(met_if(self.case.names(row.rest))),
            _ => self.want_content(row),
        }
    }

    fn want_printed(&self, row: &Row) -> Result<Verdict, AllocError> {
        let found = if row.word == "prints" {
            self.case.printed()
        } else {
            self.case.said()
        };
        Ok(match self.names.content(row.rest, row.block.as_slice())? {
            Some(bytes) => met_if(found == bytes.as_slice()),
            None => Verdict::Unread,
        })
    }

    fn are_same(&self, names: &str) -> Verdict {
        let (one, other) = parted(names);
        match self.case.content(other) {
            Some(bytes) => met_if(is_same(self.case.content(one), bytes)),
            None => Verdict::Wrong,
        }
    }

    fn want_content(&self, row: &Row) -> Result<Verdict, AllocError> {
        let (name, told) = parted(row.rest);
        let found = self.case.content(name);
        let wanted = self.told(row.word, name, told, row.block.as_slice())?;
        Ok(match (row.word, wanted) {
            ("has" | "sent" | "hexed", Some(bytes)) => met_if(is_same(found, bytes.as_slice())),
            ("begins", Some(bytes)) => met_if(begins(found, bytes.as_slice())),
            _ => Verdict::Unread,
        })
    }
}
