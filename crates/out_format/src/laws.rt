//! What is true of the definitions of the formats, whatever is printed.
ghost use Rattle.std.specs.Prelude.{◌≡◌, ◌≤◌, ℕ, false, ◌∷◌, ◌++◌, List, map, length, encode_utf8_all, IsPermutation, Option};
ghost use Rattle.std.specs.List.{AllByRecursion, flat_map};
ghost use Rattle.json_doc.specs.declared.doc.Doc.{Doc, out-Doc};
ghost use Rattle.texts.specs.declared.pairs.Pair.{Pair};
ghost use Rattle.json_doc.specs.Documents.{depth_of, IsProper};
ghost use Rattle.json_doc.specs.Grammar.{Reads};
ghost use Rattle.texts.specs.Keys.{keys, IsDistinct};
ghost use Rattle.out_format.specs.Ascending.{IsAscending, has_key};
ghost use Rattle.out_format.specs.Cells.{values};
ghost use Rattle.out_format.specs.Json.{json_of, is_empty_object};
ghost use Rattle.out_format.specs.Layers.{Layer, fields_in};
ghost use Rattle.out_format.specs.Members.{sorted, scalar_members, columns, object_cells, texts};
ghost use Rattle.out_format.specs.Scalars.{scalars_of, line_values};
ghost use Rattle.out_format.specs.Text.{part_of};
ghost use Rattle.out_format.specs.Sections.{width, column_width, filled, cell_in_column};

use json_doc::texts_read_back;

/// The JSON of a document is in RFC 8259's grammar as that document, if it nests at most 100 deep and
/// is no empty object, of which nothing is printed.
pub fn json_reads_back()
    ensures { (doc : Doc) → IsProper doc → depth_of doc ≤ 100 → is_empty_object (out-Doc doc) ≡ false →
        Reads (encode_utf8_all (json_of doc)) doc }
{
    texts_read_back();
}

/// The members of an object stand in ascending order of their keys, and are the object's own: none is
/// lost and none comes twice.
pub fn members_are_sorted()
    ensures ascending { (members : List (Pair Doc)) → IsAscending (keys (sorted members)) }
    ensures same { (members : List (Pair Doc)) → IsDistinct (keys members) → IsPermutation members (sorted members) }
{}

/// The columns of a list of objects stand in ascending order, so each comes once, and
/// they are just the keys that are scalar in some object.
pub fn columns_are_scalar_keys()
    ensures ascending { (layers : List Layer) → IsAscending (columns layers) }
    ensures exact { (layers : List Layer) (key : List ℕ) → has_key key (columns layers) ≡ has_key key (keys (flat_map scalar_members layers)) }
{}

/// Each object has a cell for each column.
pub fn objects_fill_columns()
    ensures { (columns : List (List ℕ)) (layer : Layer) → length (object_cells columns layer) ≡ length columns }
{}

/// Each scalar of an object in a list stands in just one cell of its line, and nothing else does: the
/// cells from left to right hold the texts of its scalars in the order of their keys.
pub fn cells_hold_scalars()
    ensures { (before after : List Layer) (layer : Layer) →
        values (object_cells (columns (before ++ (layer ∷ after))) layer) ≡ texts (sorted (fields_in layer)) }
{}

/// The lines of a document hold the texts of all its scalars, each just once, behind whatever key it
/// stands.
pub fn text_holds_scalars()
    ensures { (doc : Doc) → IsProper doc → (id : Option (List ℕ)) →
        IsPermutation (scalars_of doc) (line_values ((part_of doc).whole id)) }
{}

/// Each cell of a table, filled up with blanks, takes just the width of its column.
pub fn cells_fill_columns()
    ensures { (rows : List (List (List ℕ))) (column : ℕ) → AllByRecursion
        (λ row. width (filled (column_width rows column) (cell_in_column column row)) ≡ column_width rows column) rows }
{}
