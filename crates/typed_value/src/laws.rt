//! What is true of all values and shapes.
ghost use Rattle.std.specs.Prelude.{◌≡◌, ◌↔◌, ◌∷◌, [], List, Some, IsTrue};
ghost use Rattle.json_doc.specs.declared.doc.Doc.{Doc};
ghost use Rattle.service_model.specs.declared.shape.Shape.{Shape};
ghost use Rattle.service_model.specs.declared.shape.ShapeId.{ShapeId};
ghost use Rattle.typed_value.specs.declared.node.Node.{Node};
ghost use Rattle.typed_value.specs.declared.typed.Typed.{Typed};
ghost use Rattle.typed_value.specs.Faults.{faults_of};
ghost use Rattle.typed_value.specs.Fits.{fits_of};
ghost use Rattle.typed_value.specs.Laws.{HaveDistinctMembers, loosened};
ghost use Rattle.typed_value.specs.Tables.{AreNodes};
ghost use Rattle.typed_value.specs.Wire.{read_of};

/// A value fits a shape exactly where it has no faults.
pub fn fits_without_faults()
    ensures { (shapes : List Shape) (id : ShapeId) (value : Typed)
        → IsTrue (fits_of shapes id value) ↔ (faults_of shapes id value ≡ []) }
{}

/// A table is of one value.
pub fn table_is_of_one_value()
    ensures { (nodes : List Node) (a b : Typed) → AreNodes nodes (a ∷ []) → AreNodes nodes (b ∷ []) → a ≡ b }
{}

/// What is read of a page token fits its shape, but for members that must be there, least lengths and
/// values, and the one member of a union.
pub fn read_values_fit()
    ensures { (shapes : List Shape) (id : ShapeId) (doc : Doc) (value : Typed)
        → HaveDistinctMembers shapes → read_of shapes doc id ≡ Some value → IsTrue (fits_of (loosened shapes) id value) }
{}
