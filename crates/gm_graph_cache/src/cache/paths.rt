//! Whether a file declares the path under which it is required.
//!
//! A file that declares another path belongs to another module, so its requirements would be wrong for the vertex.

ghost use Rattle.std.specs.Prelude.{◌≡◌, Some, false};
ghost use Rattle.gm_name.specs.ModuleVersion.{ModuleVersion};
ghost use Rattle.gm_file.specs.Views.{right_view};
ghost use Rattle.gm_file.specs.Main.{replacement_in};
ghost use Rattle.gm_graph_files.specs.Reading.{declares, is_right_path};

use gm_file::{ListedFile, MainModule, Right};
use gm_name::{ModPath, ModVer};

/// Whether a file declares this path.
fn declares(path: &ModPath, file: &ListedFile) -> bool
    ensures { result ≡ declares path.now file.now.declared }
{
    match file.module() {
        None => false,
        Some(declared) => *declared == *path,
    }
}

/// Whether a file declares a right path for a vertex. Nearly all declare the own path of the vertex, which is right.
pub(crate) fn is_right_path(main: &MainModule, x: &ModVer, file: &ListedFile) -> bool
    ensures { result ≡ is_right_path x.now (replacement_in main.now x.now) file.now.declared }
{
    if declares(x.path(), file) {
        return true;
    }
    match main.replacement(x) {
        None => false,
        Some(right) => is_right_through(right, file),
    }
}

/// Whether a file declares a right path for a vertex that is replaced, if it does not declare that of the vertex.
fn is_right_through(right: &Right, file: &ListedFile) -> bool
    ensures { (x : ModuleVersion) → declares x.0 file.now.declared ≡ false
        → result ≡ is_right_path x (Some (right_view right.now)) file.now.declared }
{
    match right {
        Right::Folder(_) => true,
        Right::Module(path, _) => declares(path, file),
    }
}
