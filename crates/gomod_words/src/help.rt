//! The texts of help.
//!
//! `-h` shows the short texts and the examples. `--help` shows the long ones, and the errors that a command reports.
//! The lines of help are at most 100 characters wide.

/// The version of the program, and the kit that it is proved with.
pub(crate) const VERSION: &str = "1.2.0 (Rattle, logic dac8208d650f15bf)";

/// The usage line of the program.
pub(crate) const GOMOD_USAGE: &str = "gomod <COMMAND>";

/// How a usage error ends.
pub(crate) const TRY_HELP: &str = "\n\nFor more information, try '--help'.\n";

/// What the help of the program ends with.
pub(crate) const GOMOD_END: &str = "\
Examples:
  gomod fmt go.mod
  gomod edit go.mod require=example.com/p@v1.2.0
  gomod graph --proxy ~/go/pkg/mod/cache/download
  gomod list --proxy ~/go/pkg/mod/cache/download
  gomod chain example.com/p --proxy ~/go/pkg/mod/cache/download
  gomod versions example.com/p --proxy ~/go/pkg/mod/cache/download

Exit status:
  0  success
  1  a file, a list or an operation is faulty, a file of a module is missing, or a module is not
     in the build list
  2  usage error
  3  a file can't be read, the main file or the go.sum is missing, the output can't be written,
     or memory runs out

After an error standard error says what is wrong, unless it is a failed write.
'gomod <COMMAND> --help' explains the errors of each command.";

/// What help says of a command or of an argument, or ends with: examples, and if it is long the errors.
#[derive(Clone, Copy)]
pub(crate) struct Help {
    /// What short help says.
    pub(crate) short: &'static str,
    /// What long help says.
    pub(crate) long: &'static str,
}

/// What short and long help say alike.
macro_rules! alike {
    ($text:literal) => {
        Help {
            short: $text,
            long: $text,
        }
    };
}

/// What help says that `fmt` does.
pub(crate) const FMT_ABOUT: Help = Help {
    short: "Print a go.mod file, formatted",
    long: "\
Prints a go.mod file, formatted: single spaces between words, a tab before each line of a block,
and at most one blank line in a row. Only the syntax is checked, not the directives. The file
itself is not changed.",
};

/// What help says that `edit` does.
pub(crate) const EDIT_ABOUT: Help = Help {
    short: "Apply operations to a go.mod file and print the result",
    long: "\
Applies operations to the go.mod file of a main module, one after the other, and prints the
result, formatted. The file itself is not changed. If the file or an operation is faulty, only
the error is reported.

The operations are those of go mod edit, without the dash in front:
  module=PATH                           set the path of the module
  go=VERSION                            set the go version
  require=PATH@VERSION                  require a module at that version
  droprequire=PATH                      no longer require the module
  exclude=PATH@VERSION                  exclude that version
  dropexclude=PATH@VERSION              no longer exclude it
  replace=PATH[@VERSION]=PATH@VERSION   replace a module by another module
  replace=PATH[@VERSION]=FOLDER         replace a module by a folder
  dropreplace=PATH[@VERSION]            no longer replace it
  retract=VERSION                       retract a version
  retract=[LOW,HIGH]                    retract the versions from LOW to HIGH
  dropretract=VERSION                   no longer retract it
  dropretract=[LOW,HIGH]                no longer retract them",
};

/// What long help says of a query on a module graph: what it prints, and where the go.mod files come from.
macro_rules! query_about {
    ($prints:literal) => {
        concat!(
            $prints,
            "

The go.mod files of other modules are read from the proxy folders, or from the folders that
replace directives name. The go.mod of a replaced module is that of its replacement. A cache that
only go build filled may lack some of them. They are then Missing, and 'go mod download' in the
folder of the main module adds them to the cache, and their hashes to its go.sum."
        )
    };
}

/// What help says that `graph` does.
pub(crate) const GRAPH_ABOUT: Help = Help {
    short: "Print the module graph",
    long: query_about!(
        "\
Prints the module graph of a main module, as go mod graph does: a line for each requirement, with
the module that has it, a space, and the module that it requires, in ascending order. The main
module is printed as its path, any other as PATH@VERSION."
    ),
};

/// What help says that `list` does.
pub(crate) const LIST_ABOUT: Help = Help {
    short: "Print the build list",
    long: query_about!(
        "\
Prints the build list of a main module by minimal version selection, as go list -m all does: the
path of the main module, then PATH VERSION of each other module, in the order of their paths. If
a module is replaced, ' => ' and its replacement follow."
    ),
};

/// What help says that `chain` does.
pub(crate) const CHAIN_ABOUT: Help = Help {
    short: "Print a shortest chain of requirements to a module",
    long: query_about!(
        "\
Prints a shortest chain of requirements from the main module to the version of a module that is
in the build list, one module on each line: the path of the main module, then PATH@VERSION. A
tidy go.mod at go 1.17 or later requires its indirect dependencies itself, so the chain to one of
them has two lines. It is not the chain of imports that go mod why prints."
    ),
};

/// What help says that `versions` does.
pub(crate) const VERSIONS_ABOUT: Help = Help {
    short: "Print the versions of a module, from standard input or --proxy",
    long: "\
Prints the path of a module and its versions on one line, in ascending order, each once.

Without --proxy the list of versions is read from standard input, one at the start of each line,
and all of them are printed. With --proxy it is that of the proxy folders, and the versions that
the go.mod of the latest one retracts are left out. Pseudo-versions, versions that don't fit the
path and other words are skipped.",
};

/// The help of FILE of `fmt`.
pub(crate) const FMT_FILE: Help = alike!("The go.mod file to format, or - for standard input");

/// The help of FILE of `edit`.
pub(crate) const EDIT_FILE: Help = alike!("The go.mod file to edit, or - for standard input");

/// The help of OP.
pub(crate) const OPERATION: Help = alike!("An operation, such as go=1.22, without a dash in front");

/// The help of PATH.
pub(crate) const PATH: Help = alike!("The path of the module");

/// The help of `--proxy`.
pub(crate) const PROXY: Help = Help {
    short: "\
Folders with the files of modules, <DIR>[,DIR|DIR..]: after ',' the next one
is searched if a file is absent, after '|' also if the one before it fails",
    long: "\
Folders with the files of modules, <DIR>[,DIR|DIR..]: after ',' the next one is searched
if a file is absent, after '|' also if the one before it fails. Each has the layout of a
GOPROXY server, as ~/go/pkg/mod/cache/download has.

Each DIR is taken as it stands: 'file://' and 'https://' don't make it a URL, and only a
shell replaces '~', at the start of a word. In a wrong folder every module is Missing.",
};

/// The help of `--mod`.
pub(crate) const MOD: Help = alike!("The go.mod file of the main module, or - for standard input");

/// The help of `--sum`.
pub(crate) const SUM: Help = alike!(
    "The go.sum file to check go.mod files against; by default none is checked"
);

/// The help of `--after`.
pub(crate) const AFTER: Help = alike!("Print only the rows after the row of this module");

/// The help of `--limit`.
pub(crate) const LIMIT: Help = alike!("Print at most N rows, from 1 to 4294967295");

/// The help of `--retracted`.
pub(crate) const RETRACTED: Help = alike!("Print retracted versions too");

/// The end of help with these examples and these lines of errors. Each of the latter begins with a line feed.
macro_rules! end {
    ($examples:literal $(, $errors:literal)*) => {
        Help {
            short: $examples,
            long: concat!(
                $examples,
                "\n\nErrors, with status 1 unless it says otherwise (LINE 0 is the whole file):"
                $(, $errors)*
            ),
        }
    };
}

/// The end of the help of a command over one go.mod file, with the errors that it has besides those of the syntax.
macro_rules! file_end {
    ($examples:literal, $own:literal) => {
        end!(
            $examples,
            "
  go.mod:LINE: BadByte             a character that is not allowed there
  go.mod:LINE: OpenString          a string is not closed on its line
  go.mod:LINE: BadEscape           in a \"string\" a backslash before anything but \" and \\
  go.mod:LINE: BlockComment        a comment that begins with /*
  go.mod:LINE: StrayClose          a ) that closes no block, or with words after it
  go.mod:LINE: NestedOpen          a ( that can't open a block there
  go.mod:LINE: OpenBlock           the block that begins here is not closed
  go.mod:0: NotUtf8                the file is not UTF-8
  go.mod:0: TooMany                the file has more than 16777216 bytes",
            $own,
            "
  gomod: cannot read FILE          the file is missing or can't be read (status 3)
  gomod: no memory                 memory ran out (status 3)"
        )
    };
}

/// The end of the help of `fmt`.
pub(crate) const FMT_END: Help = file_end!(
    "\
Examples:
  gomod fmt go.mod
  gomod fmt go.mod | diff go.mod -",
    ""
);

/// The end of the help of `edit`.
pub(crate) const EDIT_END: Help = file_end!(
    "\
Examples:
  gomod edit go.mod require=example.com/p@v1.2.0
  gomod edit go.mod droprequire=example.com/q replace=example.com/p=../p 'retract=[v1.0.0, v1.1.0]'

With go mod edit, and the same here:
  go mod edit -print -go=1.22 -require=example.com/p@v1.2.0 go.mod
  gomod edit go.mod go=1.22 require=example.com/p@v1.2.0",
    "
  go.mod:LINE: UnknownVerb         not a directive
  go.mod:LINE: WrongArguments      not what the directive takes
  go.mod:LINE: BadPath             not a module path
  go.mod:LINE: BadVersion          not a whole version, such as v1.2.0
  go.mod:LINE: Misfit              the version does not fit the end of the path, such as /v2
  go.mod:LINE: Repeated            a second module or go directive
  go.mod:LINE: ConflictingReplace  another replacement of the same module
  go.mod:LINE: BadGo               not a go version, such as 1.21
  go.mod:0: NoModule               no module directive
  edit N: Spelling                 operation number N is none of those above
  edit N: Misfit                   its version does not fit its path"
);

/// The end of the help of a query on a module graph, with the errors that it has besides those of the graph.
macro_rules! query_end {
    ($examples:literal, $own:literal) => {
        end!(
            $examples,
            "
  go.mod:LINE: KIND                  the main file is faulty; 'gomod edit --help' explains KIND
  go.sum:LINE: BadSum                not a path, a version and a hash
  go.sum:0: TooMany                  the file has more than 16777216 bytes
  PATH@VERSION: Missing              its go.mod, or its replacement's, is in none of the folders
  PATH@VERSION: NotFetchable         no proxy can have its path, or that of its replacement
  PATH@VERSION: NoSum                the go.sum has no hash of its go.mod
  PATH@VERSION: SumDiffers           the go.sum has another hash of its go.mod
  PATH@VERSION: TooLong              its go.mod has more than 16777216 bytes
  PATH@VERSION: Malformed LINE KIND  its go.mod is faulty; 'gomod edit --help' explains KIND
  PATH@VERSION: WrongPath            its go.mod declares no path, or another one
  gomod: TooMany                     more than 65536 module versions are needed",
            $own,
            "
  gomod: bad proxy DIR               a folder is empty, 'direct' or 'off' (status 2)
  gomod: cannot read FILE            the main file or the go.sum is missing or unreadable (status 3)
  gomod: device at PATH@VERSION      its go.mod can't be looked up or read (status 3)
  gomod: device at FOLDER            likewise of a module that a folder replaces (status 3)
  gomod: no memory                   memory ran out (status 3)"
        )
    };
}

/// The end of the help of `graph`.
pub(crate) const GRAPH_END: Help = query_end!(
    "\
Examples:
  gomod graph --proxy ~/go/pkg/mod/cache/download
  gomod graph --mod ../m/go.mod --sum ../m/go.sum --proxy vendored,mirror",
    ""
);

/// The end of the help of `list`.
pub(crate) const LIST_END: Help = query_end!(
    "\
Examples:
  gomod list --proxy ~/go/pkg/mod/cache/download
  gomod list --after example.com/p --limit 100 --proxy vendored,mirror --sum go.sum",
    "
  PATH: NotListed                    the module of --after is not in the build list
  gomod: bad path PATH               the value of --after is not a module path (status 2)"
);

/// The end of the help of `chain`.
pub(crate) const CHAIN_END: Help = query_end!(
    "\
Examples:
  gomod chain example.com/p --proxy ~/go/pkg/mod/cache/download
  gomod chain example.com/p --mod ../m/go.mod --proxy vendored,mirror",
    "
  PATH: NotListed                    the module is not in the build list
  gomod: bad path PATH               not a module path (status 2)"
);

/// The end of the help of `versions`.
pub(crate) const VERSIONS_END: Help = end!(
    "\
Examples:
  printf 'v1.10.0\\nv1.9.0\\n' | gomod versions example.com/p
  gomod versions example.com/p --proxy ~/go/pkg/mod/cache/download
  gomod versions example.com/p --proxy vendored,mirror --retracted",
    "
  PATH: Missing                      its list, PATH/@v/list, is in none of the folders
  PATH: NotFetchable                 no proxy can have this path
  PATH: TooLong                      the list has more than 16777216 bytes
  PATH@VERSION: Missing              the go.mod of the latest version, which may retract versions,
                                     is in none of the folders; --retracted does without it
  PATH@VERSION: TooLong              that file has more than 16777216 bytes
  PATH@VERSION: Malformed LINE KIND  that file is faulty; 'gomod edit --help' explains KIND
  gomod: bad path PATH               not a module path (status 2)
  gomod: bad proxy DIR               a folder is empty, 'direct' or 'off' (status 2)
  gomod: cannot read -               standard input can't be read (status 3)
  gomod: device at PATH list         the list can't be looked up or read (status 3)
  gomod: device at PATH@VERSION      that file can't be looked up or read (status 3)
  gomod: no memory                   memory ran out (status 3)"
);
