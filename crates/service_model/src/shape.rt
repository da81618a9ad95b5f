use json_doc::{List, Text};

/// The number of a shape in its model.
#[derive(Clone, Copy, Debug, PartialEq, Eq)]
pub struct ShapeId(pub u32);

/// What kind of values a shape has: its `type` in botocore's `service-2.json`. A `character` is a
/// string, a `bigInteger` a long and a `bigDecimal` a double.
#[derive(Clone, Copy, Debug, PartialEq, Eq)]
pub enum Kind {
    Structure,
    List,
    Map,
    Str,
    Integer,
    Long,
    Float,
    Double,
    Boolean,
    Blob,
    Timestamp,
}

/// How a moment is written: `timestampFormat` in botocore's `service-2.json`.
#[derive(Clone, Copy, Debug, PartialEq, Eq)]
pub enum TimeForm {
    /// Seconds since 1970.
    Unix,
    Rfc822,
    Iso8601,
}

/// Where a member stands in a request or reply, if not in its body: `location` in botocore's
/// `service-2.json`.
#[derive(Clone, Copy, Debug, PartialEq, Eq)]
pub enum Location {
    Uri,
    Querystring,
    Header,
    /// A header for each entry of a map, behind a prefix.
    Headers,
    StatusCode,
}

/// A shape of a model: an entry of `shapes` in botocore's `service-2.json`.
#[derive(Debug, Drop)]
pub struct Shape {
    pub name: Text,
    pub kind: Kind,
    /// The members of a structure.
    pub members: List<Member>,
    /// Whether no two members are sent under one name.
    pub has_own_wires: bool,
    /// The names of the members that a value must have.
    pub required: List<Text>,
    /// The name of the member that is the whole body.
    pub payload: Option<Text>,
    /// The least length or value.
    pub min: Option<i64>,
    /// What a list holds, or what stands at the keys of a map.
    pub item: Option<ShapeId>,
    /// What the keys of a map are.
    pub key: Option<ShapeId>,
    /// Whether a value has just one of the members.
    pub is_union: bool,
    /// Whether the value is any document.
    pub document: bool,
    pub exception: bool,
    /// Whether the value is a stream of events.
    pub events: bool,
    pub time: Option<TimeForm>,
}

/// A member of a structure.
#[derive(Debug, Drop)]
pub struct Member {
    pub name: Text,
    /// The name that is sent: `locationName`, else the member's own.
    pub wire: Text,
    pub shape: ShapeId,
    pub location: Option<Location>,
    pub time: Option<TimeForm>,
    /// Whether it gets a fresh identifier where it isn't given: `idempotencyToken`.
    pub token: bool,
    /// Whether its text is a JSON document: `jsonvalue`.
    pub json_value: bool,
    /// Whether it fills a label of the host prefix.
    pub host_label: bool,
    /// The parameter of endpoint rules that it sets.
    pub context: Option<Text>,
}
