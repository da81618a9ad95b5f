//! The values of worked rows: a typed value is written as JSON, where `{"$blob": TEXT}`, `{"$moment": NUMBER}` and
//! `{"$any": DOCUMENT}` stand for what JSON lacks.
#![tactic(auto)]

mod values;

pub use values::value_of;
