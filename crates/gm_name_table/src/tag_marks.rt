//! Marks under tags, which say where a search in an ordered map can't be left out.

ghost use Rattle.std.specs.Prelude.{◌≡◌, IfOk, OnOk, false, length, true};
ghost use Rattle.gm_name_table.specs.Private.TagMarks.{IsMarked, KeepsMarks, mark_of};

use std::alloc::{AllocError, Global};

/// How many marks there are from the first one on.
const MANY: usize = 1024;

/// Marks under tags. Tags that agree in their highest bits share one.
#[derive(Drop)]
pub(crate) struct TagMarks {
    /// The allocator of the marks.
    alloc: Global,
    /// The marks: none before the first one is set.
    marks: Vec<bool>,
}

/// So many marks, none of them set.
fn no_marks(alloc: Global, many: usize) -> Result<Vec<bool>, AllocError>
    ensures { IfOk result (λ marks. length marks.items ≡ many) }
{
    Ok(vec![in alloc; false; many]?)
}

/// Which mark is that of a tag.
fn mark_of(tag: u32) -> usize
    ensures { result ≡ mark_of tag }
{
    (tag >> 22) as usize
}

impl TagMarks {
    /// No marks. Allocates no memory.
    pub(crate) fn new(alloc: Global) -> TagMarks {
        TagMarks {
            alloc,
            marks: Vec::new(alloc),
        }
    }

    /// Whether a tag is marked. Allocates no memory.
    pub(crate) fn has(&self, tag: u32) -> bool
        ensures { IsMarked self.now tag → result ≡ true }
    {
        match self.marks.get(mark_of(tag)) {
            Some(mark) => *mark,
            None => false,
        }
    }

    /// Makes the marks if there are none yet.
    fn make(&mut self) -> Result<(), AllocError>
        ensures made { OnOk result (length self.new.marks.items ≡ 1024) }
        ensures kept { KeepsMarks self.old self.new }
    {
        if self.marks.len() != MANY {
            self.marks = no_marks(self.alloc, MANY)?;
        }
        Ok(())
    }

    /// Marks a tag. Fails only when memory runs out. What is marked stays so in any case.
    pub(crate) fn add(&mut self, tag: u32) -> Result<(), AllocError>
        ensures marked { OnOk result (IsMarked self.new tag) }
        ensures kept { KeepsMarks self.old self.new }
    {
        self.make()?;
        self.marks[mark_of(tag)] = true;
        Ok(())
    }
}
