//! What the cache keeps of a file that was read, and where it keeps the file's requirements.

ghost use Rattle.std.specs.Prelude.{◌≡◌, ◌≤◌, ◌<◌, ◌++◌, ◌∷◌, [], IfOk, IsSome, drop, length};
ghost use Rattle.gm_name_table.specs.Listed.{modules_of};
ghost use Rattle.gm_file.specs.Listed.{Head};
ghost use Rattle.gm_file.specs.Main.{without_excluded};
ghost use Rattle.gm_graph_files.specs.KeptLists.{own_lists};
ghost use Rattle.gm_graph_files.specs.Places.{place_limit};
ghost use Rattle.gm_graph_files.specs.Summaries.{at_span, kept_reading, span_unless, summary_reading};
ghost use Rattle.gm_graph_files.specs.KeptFiles.{AreKeptIn, AreListsInOrder, AreSpansInOrder, Grows, IsKeptIn, IsListIn, front_of, listed_reading, same_list};
ghost use Rattle.gm_graph_files.specs.NotedLists.{NotesAll};
ghost use Rattle.gm_graph_files.specs.Private.Summaries.{kept_with};

use crate::list_index::ListIndex;
use crate::reading::ListedReading;
use crate::summary::{Kept, KeptList, ListSpan, Summary, leave_out};
use gm_file::MainModule;
use gm_name::NoMemory;
use gm_name_table::ModuleList;
use std::alloc::Global;

/// Where the list of the next file is, whose requirements are those of the list of modules from this place on. The
/// excluded ones are taken out. If an earlier file has the same list, these are cut off again.
fn kept_list(
    alloc: Global,
    lists: &mut ListIndex,
    modules: &mut ModuleList,
    main: &MainModule,
    files: &[Kept],
    start: usize,
) -> Result<KeptList, NoMemory>
    requires few { length files.now < place_limit }
    requires start { start ≤ length modules.old.numbers }
    requires listed { AreKeptIn (modules_of (front_of start modules.old)) files.now }
    requires notes { NotesAll lists.old (own_lists modules.old.numbers files.now) }
    ensures has { IfOk result (λ list. at_span (modules_of modules.new) list.span
        ≡ without_excluded main.now (drop start (modules_of modules.old))) }
    ensures listed { IfOk result (IsListIn (modules_of modules.new) files.now) }
    ensures order { IfOk result (λ list.
        AreSpansInOrder start (span_unless list.same_as list.span ∷ []) (length modules.new.numbers)) }
    ensures cut { IfOk result (λ list. IsSome list.same_as → length modules.new.numbers ≤ start) }
    ensures notes { NotesAll lists.new (own_lists modules.new.numbers files.now) }
    ensures next { IfOk result (λ list. (file : Head)
        → NotesAll lists.new (own_lists modules.new.numbers (files.now ++ kept_with file list ∷ []))) }
    ensures grows { Grows (front_of start modules.old) modules.new }
{
    leave_out(alloc, modules, main, start)?;
    if let Some(same) = lists.find(modules, files, start)? {
        modules.truncate(start);
        return Ok(same);
    }
    let end = modules.len();
    Ok(KeptList {
        span: ListSpan { start, end },
        same_as: None,
    })
}

/// What is kept of a file that was read. The requirements of a valid one are those of the list from this place on, without
/// the excluded ones. If an earlier file has the same list, they are cut off again.
///
/// The only refusal is `NoMemory`, after which the list may lack some from this place on.
pub fn kept_of(
    alloc: Global,
    lists: &mut ListIndex,
    modules: &mut ModuleList,
    main: &MainModule,
    files: &[Kept],
    read: ListedReading,
    start: usize,
) -> Result<Kept, NoMemory>
    requires few { length files.now < place_limit }
    requires start { start ≤ length modules.old.numbers }
    requires listed { AreKeptIn (modules_of (front_of start modules.old)) files.now }
    requires notes { NotesAll lists.old (own_lists modules.old.numbers files.now) }
    ensures reading { IfOk result (λ kept. summary_reading (modules_of modules.new) kept
        ≡ kept_reading main.now (listed_reading (drop start (modules_of modules.old)) read)) }
    ensures listed { IfOk result (IsKeptIn (modules_of modules.new) files.now) }
    ensures order { IfOk result (λ kept. AreListsInOrder start (kept ∷ []) (length modules.new.numbers)) }
    ensures cut { IfOk result (λ kept. IsSome (same_list kept) → length modules.new.numbers ≤ start) }
    ensures notes { NotesAll lists.new (own_lists modules.new.numbers files.now) }
    ensures next { IfOk result (λ kept. NotesAll lists.new (own_lists modules.new.numbers (files.now ++ kept ∷ []))) }
    ensures grows { Grows (front_of start modules.old) modules.new }
{
    match read {
        ListedReading::Valid(file) => {
            let list = kept_list(alloc, lists, modules, main, files, start)?;
            Ok(Kept::Valid(Summary { file, list }))
        }
        ListedReading::Faulty(class) => Ok(Kept::Faulty(class)),
    }
}
