//! Cases as text, each of which may be run at several sizes.

use crate::faults::{BAD_SIZES, BEFORE_TITLE, CaseFault, NO_CASE};
use crate::numbering::{count_of, numbered};
use crate::reading::is_passed;
use std::alloc::{AllocError, Global};

/// What the title of a case begins with.
const TITLE: &str = "=== ";

/// What is between a case and the title of the next one.
const NEXT_TITLE: &str = "\n=== ";

/// What the line directly below a title begins with, if the case is run at several sizes.
pub(crate) const SIZES: &str = "% sizes ";

/// What every place of a size begins with.
pub(crate) const PLACE: &str = "{N";

/// The place of the size.
const SIZE: &str = "{N}";

/// The place of the number before the size.
const BEFORE: &str = "{N-1}";

/// The place of the number after the size.
const AFTER: &str = "{N+1}";

/// How many times the size that precedes it a size is.
const STEP: usize = 4;

/// The greatest number of sizes from one to another.
const MOST_SIZES: usize = 16;

/// What stands between the least and the greatest size.
const TO: &str = " to ";

/// What stands between sizes that are all named.
const COMMA: &str = ", ";

/// The sizes that a case is run at.
#[derive(Drop)]
pub struct Sizes {
    /// In ascending order.
    pub all: Vec<usize>,
    /// Whether only the least and the greatest are named.
    is_range: bool,
}

impl Sizes {
    /// Whether a case is run in memory alone at the size after this many others. Where each size is named, it is run
    /// over real files at each.
    pub fn is_in_memory_alone(&self, index: usize) -> bool {
        self.is_range && index.saturating_add(1) < self.all.len()
    }

    /// Takes the sizes that a text names, and says whether it is one of sizes.
    fn take(&mut self, text: &str) -> Result<bool, AllocError> {
        match text.split_once(TO) {
            Some((least, most)) => self.take_range(count_of(least), count_of(most)),
            None => self.take_list(text),
        }
    }

    /// Takes the sizes from the least to the greatest: each is four times the one before it, but for the greatest.
    fn take_range(
        &mut self,
        least: Option<usize>,
        most: Option<usize>,
    ) -> Result<bool, AllocError> {
        let (Some(least), Some(most)) = (least, most) else {
            return Ok(false);
        };
        self.is_range = true;
        let mut size = least;
        for _ in 0..MOST_SIZES {
            if size < most {
                self.all.push(size)?;
                size = size.saturating_mul(STEP);
            }
        }
        self.all.push(most)?;
        Ok(least < most)
    }

    /// Takes the sizes that a text lists, in ascending order.
    fn take_list(&mut self, text: &str) -> Result<bool, AllocError> {
        for word in text.split(COMMA) {
            let size = count_of(word).unwrap_or(0);
            if size <= self.all.last().copied().unwrap_or(0) {
                return Ok(false);
            }
            self.all.push(size)?;
        }
        Ok(true)
    }
}

/// A case as text.
#[derive(Clone, Copy)]
pub struct CaseText<'a> {
    /// The number of the line of its title.
    pub line: usize,
    /// Its title, and the lines below it.
    pub text: &'a str,
}

impl<'a> CaseText<'a> {
    /// Its title.
    pub fn title(&self) -> &'a str {
        self.text.split('\n').next().unwrap_or("")
    }

    /// What the line directly below its title says of sizes, if it is such a line.
    fn sizes_line(&self) -> Option<&'a str> {
        self.text.split('\n').nth(1)?.strip_prefix(SIZES)
    }

    /// The sizes that it is run at, or none if it is run as it stands.
    pub fn sizes(&self, alloc: Global) -> Result<Option<Sizes>, CaseFault> {
        let Some(text) = self.sizes_line() else {
            return Ok(None);
        };
        let mut sizes = Sizes {
            all: Vec::new(alloc),
            is_range: false,
        };
        if sizes.take(text)? && self.title().contains(SIZE) {
            return Ok(Some(sizes));
        }
        Err(CaseFault::Line(self.line.saturating_add(1), BAD_SIZES))
    }

    /// Its text at a size.
    pub fn at(&self, alloc: Global, size: usize) -> Result<String, AllocError> {
        let text = numbered(alloc, self.text, SIZE, size, size)?;
        let before = size.saturating_sub(1);
        let text = numbered(alloc, text.as_str(), BEFORE, before, before)?;
        let after = size.saturating_add(1);
        numbered(alloc, text.as_str(), AFTER, after, after)
    }
}

/// The cases of a text, in order, each as text.
pub fn case_texts<'a>(alloc: Global, text: &'a str) -> Result<Vec<CaseText<'a>>, CaseFault> {
    // what follows the last line end of a text is not a line
    let text = text.strip_suffix('\n').unwrap_or(text);
    match text.strip_prefix(TITLE) {
        Some(cases) => divided(alloc, 1, cases),
        None => below_remarks(alloc, text),
    }
}

/// The cases of a text that does not begin with a title.
fn below_remarks<'a>(alloc: Global, text: &'a str) -> Result<Vec<CaseText<'a>>, CaseFault> {
    let (before, cases) = text.split_once(NEXT_TITLE).unwrap_or((text, ""));
    divided(alloc, line_after(before)?, cases)
}

/// The number of the line after those before the first title.
fn line_after(before: &str) -> Result<usize, CaseFault> {
    let mut number: usize = 0;
    for line in before.split('\n') {
        number = number.saturating_add(1);
        if !is_passed(line) {
            return Err(CaseFault::Line(number, BEFORE_TITLE));
        }
    }
    Ok(number.saturating_add(1))
}

/// The cases of a text that begins with a title, without its mark, in the line of this number. A text without a case is
/// a fault.
fn divided<'a>(alloc: Global, line: usize, text: &'a str) -> Result<Vec<CaseText<'a>>, CaseFault> {
    if text.is_empty() {
        return Err(CaseFault::Line(1, NO_CASE));
    }
    let mut cases = Vec::new(alloc);
    let mut line = line;
    for text in text.split(NEXT_TITLE) {
        cases.push(CaseText { line, text })?;
        line = line.saturating_add(text.split('\n').count());
    }
    Ok(cases)
}
