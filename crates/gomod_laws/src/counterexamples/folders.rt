//! What the laws on proxy folders and on later stores conclude of the files that are asked for, tried on two runs of
//! which one asks for a file and the other does not.

ghost use Rattle.gomod_laws.specs.CounterFolders.{FileIsAskedForInOne};

/// Two runs do not ask for the same files if one of them asks for the file of a.b v1.0.0 and the other asks for none.
pub fn asked_files_can_differ()
    ensures { FileIsAskedForInOne }
{}
