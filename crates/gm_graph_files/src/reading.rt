//! From a store's answer to the contents of a dependency's file.

ghost use Rattle.std.specs.Prelude.{◌≡◌, ◌≤◌, ◌<◌, [], ℕ, List, drop, length, Err, IfOk, OnErr};
ghost use Rattle.gm_name_table.specs.Kept.{IsWithinRoom, KeepsAll};
ghost use Rattle.gm_name_table.specs.Listed.{Appends, modules_of};
ghost use Rattle.gm_file.specs.Directives.{Lax};
ghost use Rattle.gm_file.specs.Misreading.{IsBytesFault};
ghost use Rattle.std.specs.Option.{option_copied};
ghost use Rattle.gm_store_parts.specs.Asked.{IsWithinLimit, bytes, name_of, reply_of};
ghost use Rattle.gm_graph_files.specs.Reading.{IsContentReading, IsFileReading, class_of_sum, sum_fault};
ghost use Rattle.gm_graph_files.specs.Summaries.{RetractsBy, reading_of};
ghost use Rattle.gm_graph_files.specs.KeptFiles.{AppendsNoneIfFaulty, Grows, listed_reading};

use crate::class::Class;
use gm_file::{BytesFault, DepFile, ListedFile, Misreading};
use gm_name::NoMemory;
use gm_name_table::{KnownNames, ModuleList};
use gm_store_parts::{Answer, FileName};
use gm_store_sums::{Sum, SumTable};
use std::alloc::{AllocError, Global};

/// What a file says, or what is wrong with it.
#[derive(Drop)]
pub enum FileReading {
    /// The file is valid, and these are its contents.
    Valid(DepFile),
    /// The file has this fault.
    Faulty(Class),
}

/// What a file says other than its requirements, which are in the list of modules, or what is wrong with it.
#[derive(Drop)]
pub enum ListedReading {
    /// The file is valid, and says this beside its requirements.
    Valid(ListedFile),
    /// The file has this fault.
    Faulty(Class),
}

impl FileReading {
    /// What a dependency's file with these bytes says, or why they can't be read: `Malformed` with `TooMany` exactly
    /// if there are more than 16 MiB. The only refusal is `NoMemory`.
    pub fn of_bytes(
        alloc: Global,
        names: &mut KnownNames,
        content: &[u8],
    ) -> Result<FileReading, NoMemory>
        ensures kept { KeepsAll names.old names.new }
        ensures within { IsWithinRoom names.old → IsWithinRoom names.new }
        ensures reading { IfOk result (λ read. length content.now ≤ 16777216
            → IsContentReading content.now (reading_of read)) }
        ensures retracts { IfOk result (RetractsBy (bytes content.now)) }
        ensures too_many { IfOk result (λ read. 16777216 < length content.now
            → reading_of read ≡ Err (Class.Malformed 0 Misreading.TooMany)) }
    {
        match DepFile::read_bytes(alloc, names, content) {
            Ok(file) => Ok(FileReading::Valid(file)),
            Err(fault) => Ok(FileReading::Faulty(class_of_fault(fault)?)),
        }
    }
}

/// The class of a failed hash check, or `None` if the hash is right.
fn class_of(sum: Sum) -> Option<Class>
    ensures { result ≡ class_of_sum sum }
{
    match sum {
        Sum::Good => None,
        Sum::Unlisted => Some(Class::NoSum),
        Sum::Differs => Some(Class::SumDiffers),
    }
}

/// What a go.sum finds wrong with the bytes of a file. Only files of proxies have hashes.
fn sum_fault(sums: Option<&SumTable>, name: &FileName, content: &[u8]) -> Option<Class>
    ensures { result ≡ sum_fault (option_copied sums.entry) (name_of name.now) content.now }
{
    let table = sums?;
    match name {
        FileName::Mod(path, version) => class_of(table.check_content(path, version, content)),
        FileName::Folder(_) | FileName::List(_) => None,
    }
}

/// The class of bytes that can't be read for this reason. The only refusal is `NoMemory`.
fn class_of_fault(fault: BytesFault) -> Result<Class, NoMemory>
    ensures reading { IfOk result (λ class. (content : List ℕ) → IsBytesFault Lax content fault
        → length content ≤ 16777216 → IsContentReading content (Err class)) }
    ensures too_many { IfOk result (λ class. (content : List ℕ) → IsBytesFault Lax content fault
        → 16777216 < length content → class ≡ Class.Malformed 0 Misreading.TooMany) }
{
    match fault {
        BytesFault::NoMemory => Err(AllocError),
        BytesFault::Misread { line, kind } => Ok(Class::Malformed { line, kind }),
    }
}

/// Expects the path of the module whose file has this name, since nearly all files declare it.
fn expect_path(names: &mut KnownNames, name: &FileName) -> Result<(), NoMemory>
    ensures kept { KeepsAll names.old names.new }
    ensures within { IsWithinRoom names.old → IsWithinRoom names.new }
{
    match name {
        FileName::Mod(path, _) => names.expect(path),
        FileName::Folder(_) | FileName::List(_) => Ok(()),
    }
}

/// What an answer says, or what is wrong with it. The requirements go to the end of the list of modules. No store's
/// answer is over the limit.
///
/// The only refusal is `NoMemory`. After it, and for a file with a fault, the list is as it was, but more modules may have
/// numbers.
pub fn read_answer(
    alloc: Global,
    names: &mut KnownNames,
    modules: &mut ModuleList,
    sums: Option<&SumTable>,
    name: &FileName,
    answer: &Answer,
) -> Result<ListedReading, NoMemory>
    ensures reading { IfOk result (λ read. IsWithinLimit (reply_of answer.now)
        → IsFileReading (option_copied sums.entry) (name_of name.now) (reply_of answer.now)
        (listed_reading (drop (length modules.old.numbers) (modules_of modules.new)) read)) }
    ensures faulty { IfOk result (AppendsNoneIfFaulty modules.old modules.new) }
    ensures err { OnErr result (Appends modules.old modules.new []) }
    ensures grows { Grows modules.old modules.new }
    ensures kept { KeepsAll names.old names.new }
    ensures within { IsWithinRoom names.old → IsWithinRoom names.new }
{
    expect_path(names, name)?;
    match answer {
        Answer::Absent => Ok(ListedReading::Faulty(Class::Missing)),
        Answer::TooLong => Ok(ListedReading::Faulty(Class::TooLong)),
        Answer::Bytes(content) => match sum_fault(sums, name, content) {
            Some(class) => Ok(ListedReading::Faulty(class)),
            None => match DepFile::read_listed(alloc, names, modules, content) {
                Ok(file) => Ok(ListedReading::Valid(file)),
                Err(fault) => Ok(ListedReading::Faulty(class_of_fault(fault)?)),
            },
        },
    }
}
