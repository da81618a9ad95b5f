use json_doc::Text;
use service_model::{Kind, ShapeId};

/// What is wrong with a value at a path. The path of the whole value is empty; the parts of others
/// are names of members and keys, with a point between each two, and places in lists, as in
/// `Tags[0].Key`.
#[derive(Debug, Drop)]
pub enum ValueFault {
    /// A member that the structure at the path must have.
    Missing(Text, Text),
    /// A member that the structure at the path, whose shape this is, doesn't have.
    Unknown(Text, Text, ShapeId),
    /// Another kind of value than this.
    WrongType(Text, Kind),
    /// A length, in characters or items, that is below the least one.
    Short(Text, u64, i64),
    /// A number that is below the least one.
    Small(Text, i64, i64),
    /// A union with none or several members.
    Union(Text),
}
