//! A law of what a store has later.

ghost use Rattle.gomod_laws.specs.LaterLaws.{LaterAsksTheSame, LaterPrintsTheSame};

/// What a store has only later changes nothing that was printed. Let a store answer for each file what an earlier one
/// answered, or what it likes if the earlier one answered that there is no such file. If a command prints over the
/// earlier store, it prints the same over the later one. The law is about answers, not about files in folders: a file
/// that is put into the first of two proxy folders changes the answer if the second folder has one of that name. A list
/// of versions that grows is an answer that changes.
pub fn what_is_published_later_changes_nothing()
    // the output, the report and the status are the same
    ensures prints { LaterPrintsTheSame }
    // the same files are asked for
    ensures asks { LaterAsksTheSame }
{}
