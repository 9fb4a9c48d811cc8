//! Why loading a module graph stops.

ghost use Rattle.std.specs.Prelude.{◌≡◌, IsSome};
ghost use Rattle.gm_graph_cache.specs.Asking.{IsLoadFaultOf};
ghost use Rattle.gm_graph_cache.specs.declared.cache.load_fault.LoadFault.TheVariants as load;

use gm_store::{AskFault, FileName};
use std::alloc::{AllocError, AllocFailed};
use thiserror::Error;

/// Why loading stopped.
#[derive(Debug, Drop, PartialEq, Eq, Error)]
pub enum LoadFault {
    /// Memory ran out.
    #[error("out of memory")]
    NoMemory,
    /// The store's device failed when it was asked for this file.
    #[error("the store's device failed")]
    Device(FileName),
    /// More than 65,536 vertices would be opened.
    #[error("more than 65,536 modules")]
    TooMany,
}

impl LoadFault {
    /// Why loading stops after this refusal of a request. If the device failed, the name is that of the file.
    pub(crate) fn of_request(fault: AskFault, name: Option<FileName>) -> LoadFault
        requires { fault ≡ AskFault.Device → IsSome name }
        ensures { IsLoadFaultOf fault name result }
    {
        match fault {
            AskFault::NoMemory => LoadFault::NoMemory,
            AskFault::Device => match name {
                Some(name) => LoadFault::Device(name),
                None => unreachable!(),
            },
        }
    }
}

impl From<AllocError> for LoadFault {
    ghost from_gives = { λ _ fault. fault ≡ load.NoMemory };

    /// A failed allocation is `NoMemory`.
    fn from(_error: AllocError) -> LoadFault {
        LoadFault::NoMemory
    }
}

impl<T: Drop> From<AllocFailed<T>> for LoadFault {
    ghost from_gives = { λ _ fault. fault ≡ load.NoMemory };

    /// A failed allocation is `NoMemory`. The value that couldn't be stored is dropped.
    fn from(_error: AllocFailed<T>) -> LoadFault {
        LoadFault::NoMemory
    }
}
