//! Documents as output: indented JSON, text with tabs, and tables.
#![tactic(auto)]

mod cell;
mod formats;
mod laws;
mod layers;
mod lines;
mod members;
mod paths;
mod section;
mod shown_cell;
mod table_rows;
mod table_sections;
mod text_lines;

pub use cell::Cell;
pub use formats::{json, table, text};
pub use laws::{
    cells_fill_columns, cells_hold_scalars, columns_are_scalar_keys, json_reads_back,
    members_are_sorted, objects_fill_columns, text_holds_scalars,
};
pub use section::Section;
