//! Asking a store for one file. A separate step, because a failing device ends a run with a report of its own.

ghost use Rattle.std.specs.Prelude.{◌≡◌, None};
ghost use Rattle.gm_store_parts.specs.Asked.{answer_in, name_of};
ghost use Rattle.gm_store_parts.specs.States.{HasServed};
ghost use Rattle.gomod_outcomes.specs.Private.Asking.{IsAsked};

use gm_store::{AskFault, Asks, FileName};
use gomod_texts::Report;

/// Asks for a file that has not been asked for before. If the store's device fails, that is reported; otherwise only
/// memory can run out.
pub(crate) fn ask_for<'r, F: Asks>(files: &mut F, name: FileName) -> Result<(), Report<'r>>
    requires { answer_in (F.state files.old).asked (name_of name) ≡ None }
    ensures asked { IsAsked (name_of name) (F.state files.old) (F.state files.new) result }
    ensures served { HasServed (F.may_answer files.old) (F.may_answer files.new)
        (F.state files.old) (F.state files.new) }
{
    match files.ask(&name) {
        Ok(()) => Ok(()),
        Err(AskFault::NoMemory) => Err(Report::NoMemory),
        Err(AskFault::Device) => Err(Report::Device(name)),
    }
}
