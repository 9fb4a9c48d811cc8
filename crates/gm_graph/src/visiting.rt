//! One visit of the worklist: what reading one vertex finds, and adds to the worklist.

ghost use Rattle.std.specs.Prelude.{◌≡◌, ◌<◌, ◌++◌, ◌∷◌, [], OnOk, Contains, Err, List, length, true};
ghost use Rattle.gm_name.specs.ModuleVersion.{ModuleVersion};
ghost use Rattle.gm_graph_cache.specs.Asking.{AsksOne, IsAskableFile};
ghost use Rattle.gm_graph_cache.specs.Cached.{Knows, file_count, main_in, run_in, table_in, turns_in, module_numbered};
ghost use Rattle.gm_graph_cache.specs.Lent.{lent_modules, lent_table};
ghost use Rattle.gm_graph_cache.specs.Visits.{IsVisit};
ghost use Rattle.gm_graph_cache.specs.Refusals.{refused_in};
ghost use Rattle.gm_graph.specs.Private.Worklists.{IsWorklist, turn_of, turns_of};
ghost use Rattle.gm_graph.specs.Private.Followed.{followed_at};
ghost use Rattle.gm_graph_files.specs.Places.{place_limit};
ghost use Rattle.gm_graph_cache.specs.Sayings.{Run, Says};
ghost use Rattle.gm_graph_files.specs.Turns.{turn};
ghost use Rattle.gm_graph.specs.Private.Turns.{OverflowsWith};
ghost use Rattle.gm_graph.specs.Private.TurnVisits.{AddsTurn, IsReady, IsTurnVisited};
ghost use Rattle.gm_graph.specs.Private.Visiting.{OverflowsAt};
ghost use Rattle.gm_graph_files.specs.declared.depth.Depth.TheVariants.{Deep};
ghost use Rattle.gm_graph_files.specs.declared.depth.Turn.{Turn};
ghost use Rattle.gm_graph.specs.declared.followed.Followed.{Followed};
ghost use Rattle.gm_graph.specs.declared.worklist.Worklist.{Worklist};

use crate::findings::Findings;
use crate::followed::Followed;
use crate::worklist::{NumberedTurn, Worklist};
use gm_graph_cache::{Cache, Class, LoadFault, Required, Visit};
use gm_store::Asks;

/// Notes the fault of a vertex.
fn add_fault(findings: &mut Findings, one: NumberedTurn, class: Class) -> Result<(), LoadFault>
    ensures adds { (cache : Cache) (run : Run) (visited : List Turn) (worklist : Worklist) (marks : Followed)
        → IsReady cache run visited worklist marks findings.old → one.number < length (table_in cache)
        → Says run (module_numbered cache one.number) (Err class)
        → OnOk result (AddsTurn cache run (visited ++ turn_of (table_in cache) one ∷ []) worklist worklist marks
        findings.new one) }
    ensures not_refused { refused_in result ≡ [] }
    ensures not_too_many { result ≡ Err LoadFault.TooMany → ⊥ }
{
    findings.note_fault(one.number, class)?;
    Ok(())
}

/// Notes which file has the list of a vertex without a fault, and, if the visit leads further, adds the turns of what the
/// vertex requires to the worklist.
fn add_requirements(
    worklist: &mut Worklist,
    followed: &mut Followed,
    findings: &mut Findings,
    one: NumberedTurn,
    required: Required<'_>,
) -> Result<(), LoadFault>
    requires worklist { IsWorklist (lent_table required.list) worklist.old }
    requires followed { followed_at followed.old required.file ≡ true → (y : ModuleVersion)
        → Contains (lent_modules required.list) y
        → Contains (turns_of (lent_table required.list) worklist.old) (turn y Deep) }
    ensures adds { (cache : Cache) (run : Run) (visited : List Turn)
        → IsReady cache run visited worklist.old followed.old findings.old
        → one.number < length (table_in cache)
        → IsVisit cache run (module_numbered cache one.number) one.depth (Visit.Required required.entry)
        → OnOk result
        (AddsTurn cache run (visited ++ turn_of (table_in cache) one ∷ []) worklist.old worklist.new followed.new
        findings.new one) }
    ensures too_many { result ≡ Err LoadFault.TooMany → (required.entry.leads ≡ true)
        × OverflowsWith (turns_of (lent_table required.entry.list) worklist.old) (lent_modules required.entry.list) }
    ensures not_refused { refused_in result ≡ [] }
{
    let Required { file, leads, list } = required;
    if leads {
        followed.follow(worklist, file, list)?;
    }
    findings.record_file(one.number, file)?;
    Ok(())
}

/// Visits a vertex: makes its file known, notes what was found, and puts what the vertex requires on the worklist.
///
/// `Device` is returned if the store's device fails in this request, and `TooMany` if more than `MOST` vertices
/// would be opened. `NoMemory` is returned if memory runs out.
pub(crate) fn visit<F: Asks>(
    cache: &mut Cache<'_>,
    files: &mut F,
    worklist: &mut Worklist,
    followed: &mut Followed,
    findings: &mut Findings,
    one: NumberedTurn,
) -> Result<(), LoadFault>
    requires knows { Knows cache.old (F.state files.old).asked }
    requires ready { IsReady cache.old (run_in cache.old (F.state files.old).asked) (turns_in cache.old) worklist.old
        followed.old findings.old }
    requires below { one.number < length (table_in cache.old) }
    requires few { file_count cache.old < place_limit }
    ensures visited { OnOk result (IsTurnVisited cache.old cache.new (F.state files.old).asked (F.state files.new).asked
        worklist.old worklist.new followed.new findings.new one) }
    ensures too_many { result ≡ Err LoadFault.TooMany → OverflowsAt (run_in cache.old (F.state files.new).asked)
        (turns_of (table_in cache.old) worklist.old) (module_numbered cache.old one.number) one.depth }
    ensures asks { AsksOne (IsAskableFile (main_in cache.old) (module_numbered cache.old one.number))
        (F.may_answer files.old) (F.may_answer files.new) (F.state files.old) (F.state files.new) (refused_in result) }
{
    match cache.visit(files, one.number, one.depth) {
        Ok(Visit::Fault(class)) => add_fault(findings, one, class),
        Ok(Visit::Required(required)) => add_requirements(
            worklist, followed, findings, one, required,
        ),
        Err(fault) => Err(cache.load_fault(fault)),
    }
}
