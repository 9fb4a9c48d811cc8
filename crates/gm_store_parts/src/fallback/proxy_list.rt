//! Proxy lists: the folders to look into, in order, and the marks that control the fallback between them.
//!
//! The text has the form of the variable GOPROXY. Modules are read only from folders, so the words `direct` (fetch
//! from version control) and `off` (fetch nothing) are refused.

ghost use Rattle.std.specs.Prelude.{◌≡◌, ◌+◌, length};
ghost use Rattle.gm_store_parts.specs.declared.fallback.proxy_list.ProxyFault.TheVariants.{NoMemory as OutOfMemory};

use crate::fallback::proxy_list_parser::{has_folders_only, split_at_marks};
use std::alloc::{AllocError, Global};
use thiserror::Error;

/// The separator between two folders of a proxy list. It decides when a lookup falls back to the next folder (Go
/// Modules Reference, GOPROXY).
#[derive(Clone, Copy)]
pub enum Mark {
    /// `,`: the lookup falls back if the file is absent.
    Comma,
    /// `|`: the lookup falls back if the file is absent or the device failed.
    Bar,
}

/// Why a text isn't a proxy list.
#[derive(Clone, Copy, Debug, PartialEq, Eq, Error)]
pub enum ProxyFault {
    /// Memory ran out.
    #[error("out of memory")]
    NoMemory,
    /// A folder is empty, `direct` or `off`.
    #[error("not a list of proxy folders")]
    BadProxy,
}

impl From<AllocError> for ProxyFault {
    ghost from_gives = { λ _ fault. fault ≡ OutOfMemory };

    fn from(_error: AllocError) -> ProxyFault {
        ProxyFault::NoMemory
    }
}

/// One or more proxy folders, with a mark between each two.
#[derive(Drop)]
pub struct ProxyList {
    /// The folders, in order; at least one.
    pub folders: Vec<String>,
    /// The marks between them, in order; one fewer.
    pub marks: Vec<Mark>,
    // A mark stands between each two folders.
    ghost between: { length folders.items ≡ length marks.items + 1 },
}

impl ProxyList {
    ghost use Rattle.std.specs.Prelude.{false, true, IfOk, OnOk};
    ghost use Rattle.std.specs.List.{list_all};
    ghost use Rattle.gm_store_parts.specs.Proxies.{folders_in, folders_of, is_folder, marks_in, marks_of};

    /// Parses a list of folders with `,` or `|` between them. A text without a mark is one folder.
    ///
    /// `BadProxy` is returned if a folder is empty, `direct` or `off`, `NoMemory` if memory runs out. Nothing else
    /// is tested: a URL is taken as the path of a folder, and folders need not exist.
    pub fn read(alloc: Global, value: &str) -> Result<ProxyList, ProxyFault>
        ensures folders { IfOk result (λ list. folders_in list ≡ folders_of value.now) }
        ensures marks { IfOk result (λ list. marks_in list ≡ marks_of value.now) }
        ensures good { OnOk result (list_all is_folder (folders_of value.now) ≡ true) }
        ensures bad { result ≡ Err ProxyFault.BadProxy → list_all is_folder (folders_of value.now) ≡ false }
    {
        let list = split_at_marks(alloc, value)?;
        if has_folders_only(&list.folders) {
            Ok(list)
        } else {
            Err(ProxyFault::BadProxy)
        }
    }
}
