//! The models of services, as botocore ships them: `service-2.json`, `paginators-1.json` and
//! `waiters-2.json`, read with every reference resolved, or refused with the place of the first
//! fault.
#![tactic(auto)]

mod admission;
mod arguments;
mod choices;
mod fixed_values;
mod labelled;
mod labels;
mod laws;
mod locations;
mod members;
mod metadata;
mod model;
mod numbering;
mod operation;
mod operations;
mod reach;
mod shape;
mod shapes;
mod signing;

pub use arguments::Argument;
pub use labelled::LabelUse;
pub use laws::members_have_named_shapes;
pub use members::Roles;
pub use metadata::{Described, Metadata, Protocol};
pub use model::{Model, Table};
pub use model_files::{
    Acceptor, Matcher, ModelFault, PagerRow, Paginators, Place, State, WaiterRow, Waiters,
    command_name,
};
pub use numbering::Outline;
pub use operation::{Operation, Refusal};
pub use operations::Row;
pub use shape::{Kind, Location, Member, Shape, ShapeId, TimeForm};
pub use shapes::Structure;
pub use signing::Signing;
