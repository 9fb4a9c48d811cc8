//! Laws that follow from the definitions, each stated as the contract of a function that does nothing.
//!
//! A proof uses a law by calling its function: it then knows what the contract says.

ghost use Rattle.std.specs.Prelude.{◌≡◌, ◌↔◌, ◌⊎◌, ◌++◌, ◌∷◌, ◌≤◌, ℕ, Bool, true, false, List, Option, Some, Result, Ok, String, take, insert, slice_range};
ghost use Rattle.std.specs.List.{AllByRecursion, list_all};
ghost use Rattle.std.specs.String.{string_bytes};
ghost use Rattle.std.specs.declared.alloc.Global.{Global};
ghost use Rattle.gm_syntax_words.specs.declared.fault.SyntaxKind.{SyntaxKind};
ghost use Rattle.gm_syntax_words.specs.declared.fault.SyntaxKind.TheVariants.{OpenBlock};
ghost use Rattle.gm_syntax_words.specs.declared.fault.SyntaxFault.{SyntaxFault};
ghost use Rattle.gm_syntax_words.specs.declared.word.Punct.{Punct};
ghost use Rattle.gm_syntax_words.specs.declared.word.Kind.TheVariants.{Mark};
ghost use Rattle.gm_syntax_words.specs.Lines.{HasNoLineFeed, lines_of};
ghost use Rattle.gm_syntax_words.specs.Words.{Word, IsBare, HasValue, mark_text};
ghost use Rattle.gm_syntax_words.specs.Bare.{can_be_bare};
ghost use Rattle.gm_syntax_words.specs.Values.{value_of};
ghost use Rattle.gm_syntax_words.specs.Tokens.{Placed, IsNewWord};
ghost use Rattle.gm_syntax_words.specs.Spelling.{IsSpelledBy, HasLexicalFault, IsSpelled, IsFaulty, IsWord, IsSuffix};
ghost use Rattle.gm_syntax.specs.Document.{Line, Blank, Comment, Open, Close, Entry, inside_after_all, is_level, IsLineAt, HasLineFault, IsValidLine, IsEntry, IsDocument, Finish, Faulty, ReadsLines, start, without};
ghost use Rattle.gm_syntax.specs.Layout.{layout, IsLayout, IsStable};
ghost use Rattle.gm_syntax.specs.Parsed.{IsParsedAs, IsReadBack};
ghost use Rattle.gm_syntax.specs.Placing.{IsPlacedIn};
ghost use Rattle.gm_syntax.specs.Documents.{ConsistOfParts, AreInTurn, AreValidInPlace, ArePieces, HaveNoFault, IsNeverClosed, IsReading, IsReadingResult};

/// A line has at most one spelling.
pub fn lines_have_one_spelling()
    ensures { (line : List ℕ) (words others : List Word) (comment other : Option (List ℕ))
        → IsSpelledBy line words comment → IsSpelledBy line others other
        → (words ≡ others) × (comment ≡ other) }
{}

/// A line has at most one lexical fault.
pub fn lines_have_one_fault()
    ensures { (line : List ℕ) (kind other : SyntaxKind)
        → HasLexicalFault line kind → HasLexicalFault line other → kind ≡ other }
{}

/// A line has a spelling or a lexical fault, and never both.
pub fn lines_are_spelled_or_faulty()
    ensures either { (line : List ℕ) → IsSpelled line ⊎ IsFaulty line }
    ensures never_both { (line : List ℕ) → IsSpelled line → ¬ IsFaulty line }
{}

/// The layout is the text of the only list of lines with these properties: it keeps every line except blank
/// ones, in order; it has a blank line between two kept lines exactly if the document has one or more there,
/// the first is not an opening and the second is not a closing; and it has no blank line at either end.
pub fn layout_is_laid_out()
    ensures { (lines : List (Line Word)) → IsLayout lines (layout lines) }
{}

/// The layout of a document reads as the same lines, blank ones aside, and the layout of those lines is the
/// same bytes.
pub fn layout_is_stable()
    ensures { (doc : List (Line Word)) → IsDocument doc → (again : List (Line Word)) × IsStable doc again }
{}

/// The layout of a document, in a string such as `Doc::format` returns, has the same lines, blank ones aside, and they
/// have the same layout. It has no fault but that it can be longer than `Doc::parse` accepts: it is UTF-8, and no line
/// of it is faulty.
pub fn layout_is_read_back()
    ensures { (lines : List (Line Word)) (text : String Global) (answer : Result (List (Line Placed)) SyntaxFault)
        → IsDocument lines → string_bytes text ≡ layout lines
        → IsParsedAs (string_bytes text) answer → IsReadBack lines answer }
{}

/// A document has one placing: two results of reading the same bytes, each placed in them, have the same words
/// with the same spans and line numbers. So what `Doc::parse` says of an `Ok` determines the whole document.
pub fn documents_have_one_placing()
    ensures { (source : List ℕ) (doc other : List (Line Placed))
        → IsParsedAs source (Ok doc) → IsParsedAs source (Ok other)
        → IsPlacedIn source doc → IsPlacedIn source other → doc ≡ other }
{}

/// Words and a comment that are valid on a line are the spelling of some line. With this, an edit shows that
/// its new line can be inserted.
pub fn words_are_spelled()
    ensures { (words : List Word) (suffix : Option (List ℕ))
        → AllByRecursion IsWord words → IsSuffix suffix
        → (text : List ℕ) × HasNoLineFeed text × IsSpelledBy text words suffix }
{}

/// The words and the comment of a line are valid on a line.
pub fn spelled_are_words()
    ensures { (text : List ℕ) (words : List Word) (suffix : Option (List ℕ))
        → HasNoLineFeed text → IsSpelledBy text words suffix
        → AllByRecursion IsWord words × IsSuffix suffix }
{}

/// A word has only one value.
pub fn words_have_one_value()
    ensures { (word : Word) (value : List ℕ) → HasValue word value → value_of word ≡ value }
{}

/// The computed test for bare words agrees with the definition of bare words.
pub fn bare_words_are_tested()
    ensures { (text : List ℕ) → can_be_bare text ≡ true ↔ IsBare text }
{}

/// The word that an edit makes from a text without a line feed is valid on a line, and its value is that text.
pub fn new_words_are_valid()
    ensures { (value : List ℕ) (t : Placed)
        → HasNoLineFeed value → IsNewWord value t → IsWord t.word × HasValue t.word value }
{}

/// Punctuation is valid on a line.
pub fn marks_are_valid()
    ensures { (punct : Punct) → IsWord (record { kind = Mark; spelling = mark_text punct }) }
{}

/// Which words and comments form an entry. These are the same inside and outside a block.
pub fn entries_are_valid()
    ensures { (inside : Bool) (words : List Word) (suffix : Option (List ℕ))
        → IsValidLine inside (Entry words suffix) ↔ IsEntry words suffix }
{}

/// A comment is valid anywhere.
pub fn comments_are_valid()
    ensures { (inside : Bool) (text : List ℕ) → IsSuffix (Some text) → IsValidLine inside (Comment text) }
{}

/// A blank line is valid anywhere.
pub fn blank_lines_are_valid()
    ensures { (inside : Bool) → IsValidLine inside Blank }
{}

/// A line that opens and closes nothing, and is valid inside or outside a block, may be inserted anywhere.
pub fn level_lines_may_be_inserted()
    ensures { (lines : List (Line Word)) (at : ℕ) (line : Line Word) (inside : Bool)
        → IsDocument lines → is_level line ≡ true → IsValidLine inside line → IsDocument (insert lines at line) }
{}

/// Lines that open and close nothing may be removed anywhere.
pub fn level_lines_may_be_removed()
    ensures { (lines : List (Line Word)) (from to : ℕ) → from ≤ to → IsDocument lines
        → list_all is_level (slice_range lines from to) ≡ true → IsDocument (without lines from to) }
{}

/// A whole block may be removed: its opening, its content and its closing, together with any lines after it
/// that open and close nothing.
pub fn blocks_may_be_removed()
    ensures { (lines inner behind : List (Line Word)) (from to : ℕ) (verb : Word) (suffix last : Option (List ℕ))
        → from ≤ to → IsDocument lines
        → slice_range lines from to ≡ Open verb suffix ∷ (inner ++ Close last ∷ behind)
        → list_all is_level inner ≡ true → list_all is_level behind ≡ true
        → IsDocument (without lines from to) }
{}

/// Any lines may be removed if a block is open after them exactly if one is open before them.
pub fn balanced_lines_may_be_removed()
    ensures { (lines : List (Line Word)) (from to : ℕ) → from ≤ to → IsDocument lines
        → inside_after_all false (take to lines) ≡ inside_after_all false (take from lines)
        → IsDocument (without lines from to) }
{}

/// The documents are the lists of lines that consist of single lines and blocks. A block is an opening, lines
/// that open and close nothing, and a closing.
pub fn documents_consist_of_parts()
    ensures { (lines : List (Line Word)) → IsDocument lines ↔ ConsistOfParts lines }
{}

/// The documents are the lists of lines in which openings and closings alternate, the last block is closed, and
/// each line is valid after the lines before it: as a line in a block exactly if more of them open a block than
/// close one.
pub fn documents_alternate()
    ensures { (lines : List (Line Word)) → IsDocument lines ↔ (AreInTurn lines × AreValidInPlace lines) }
{}

/// The lines of a text are its pieces between line feeds, without an empty last one.
pub fn lines_are_pieces()
    ensures { (text : List ℕ) (pieces : List (List ℕ)) → ArePieces text pieces ↔ (pieces ≡ lines_of text) }
{}

/// A piece of a text is one line or has one fault, inside a block and outside, and never both. `OpenBlock` is the
/// fault of no piece: it is a fault of the whole text.
pub fn pieces_are_lines_or_faulty()
    ensures either { (inside : Bool) (piece : List ℕ) → ((line : Line Word) × IsLineAt inside piece line)
        ⊎ ((kind : SyntaxKind) × HasLineFault inside piece kind) }
    ensures never_both { (inside : Bool) (piece : List ℕ) (line : Line Word) (kind : SyntaxKind)
        → IsLineAt inside piece line → ¬ HasLineFault inside piece kind }
    ensures one_line { (inside : Bool) (piece : List ℕ) (line other : Line Word)
        → IsLineAt inside piece line → IsLineAt inside piece other → line ≡ other }
    ensures one_fault { (inside : Bool) (piece : List ℕ) (kind other : SyntaxKind)
        → HasLineFault inside piece kind → HasLineFault inside piece other → kind ≡ other }
    ensures never_open_block { (inside : Bool) (piece : List ℕ) → ¬ HasLineFault inside piece OpenBlock }
{}

/// Reading a text from its start, line by line, gives the lines that its pieces are, one for one. A fault is that
/// of the first piece that is no line; or if every piece is one, it is the last opening, whose block is not closed.
pub fn texts_are_read_in_order()
    ensures { (text : List ℕ) (lines : List (Line Word)) (finish : Finish)
        → ReadsLines start (lines_of text) lines finish ↔ IsReading text lines finish }
{}

/// The reported fault is that of the first line that has one: no line before it has a fault. `OpenBlock` is
/// reported only if every line is without fault, at the last opening, after which there is no closing.
pub fn faults_are_the_first()
    ensures none_before { (text : List ℕ) (lines : List (Line Word)) (finish : Finish)
        → IsReading text lines finish → HaveNoFault (lines_of text) lines }
    ensures open_block { (text : List ℕ) (lines : List (Line Word)) (number : ℕ)
        → IsReading text lines (Faulty number OpenBlock) → IsNeverClosed (lines_of text) lines number }
{}

/// Every text has one reading.
pub fn texts_have_one_reading()
    ensures some { (text : List ℕ) → (lines : List (Line Word)) × (finish : Finish) × IsReading text lines finish }
    ensures one { (text : List ℕ) (lines others : List (Line Word)) (finish other : Finish)
        → IsReading text lines finish → IsReading text others other → (others ≡ lines) × (other ≡ finish) }
{}

/// What `Doc::parse` says of bytes is their reading: the document that their pieces are, or the first fault.
pub fn results_are_readings()
    ensures { (bytes : List ℕ) (answer : Result (List (Line Placed)) SyntaxFault)
        → IsParsedAs bytes answer ↔ IsReadingResult bytes answer }
{}
