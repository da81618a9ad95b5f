//! What is true of every text, whichever is read.
ghost use Rattle.std.specs.Prelude.{◌≡◌, ◌≤◌, ◌↔◌, ◌++◌, ℕ, List, [], Ok, encode_utf8_all};
ghost use Rattle.json_doc.specs.Compact.{compact_of};
ghost use Rattle.json_doc.specs.declared.doc.Doc.{Doc};
ghost use Rattle.json_doc.specs.declared.read_fault.ReadFault.{ReadFault};
ghost use Rattle.json_doc.specs.Documents.{depth_of, IsProper};
ghost use Rattle.json_doc.specs.Faults.{HasFault};
ghost use Rattle.json_doc.specs.Grammar.{Reads, Ws};
ghost use Rattle.json_doc.specs.Indented.{indented_of};
ghost use Rattle.json_doc.specs.JsonTexts.{IsJsonText};
ghost use Rattle.json_doc.specs.Scan.{Scans};

/// Reading from the left ends with a document exactly where the grammar has it, at most 100 deep
/// and with numbers that are decimals.
pub fn reading_is_grammar()
    ensures { (bytes : List ℕ) (d : Doc) → Scans bytes (Ok d) ↔ Reads bytes d }
{}

/// A text is one document at most, and then it has no fault; or it has one fault at most.
pub fn reading_is_unique()
    ensures document { (bytes : List ℕ) (d e : Doc) → Reads bytes d → Reads bytes e → d ≡ e }
    ensures no_fault { (bytes : List ℕ) (d : Doc) (f : ReadFault) → Reads bytes d → HasFault bytes f → ⊥ }
    ensures fault { (bytes : List ℕ) (f g : ReadFault) → HasFault bytes f → HasFault bytes g → f ≡ g }
{}

/// The two texts of a document are in the grammar as that document, if it nests at most 100 deep;
/// so is the indented one with blanks behind it, as a line end.
pub fn texts_read_back()
    ensures compact { (d : Doc) → IsProper d → depth_of d ≤ 100 → Reads (encode_utf8_all (compact_of d)) d }
    ensures indented { (d : Doc) → IsProper d → depth_of d ≤ 100 → Reads (encode_utf8_all (indented_of d)) d }
    ensures blanks_behind { (d : Doc) (blanks : List ℕ) → IsProper d → depth_of d ≤ 100 → Ws blanks [] → Reads (encode_utf8_all (indented_of d ++ blanks)) d }
{}

/// What is read nests at most 100 deep and is what its types keep, so both of its texts are read as
/// that document again.
pub fn what_is_read_prints()
    ensures depth { (bytes : List ℕ) (d : Doc) → Reads bytes d → depth_of d ≤ 100 }
    ensures proper { (bytes : List ℕ) (d : Doc) → Reads bytes d → IsProper d }
    ensures compact { (bytes : List ℕ) (d : Doc) → Reads bytes d → Reads (encode_utf8_all (compact_of d)) d }
    ensures indented { (bytes : List ℕ) (d : Doc) → Reads bytes d → Reads (encode_utf8_all (indented_of d)) d }
{}

/// A document is a JSON text; the limits on depth and on numbers only take away.
pub fn documents_are_json_texts()
    ensures { (bytes : List ℕ) (d : Doc) → Reads bytes d → IsJsonText bytes }
{}
