//! Sheets of figures: what stands in which column, and their texts as tables for a person, as CSV and as JSON.
#![tactic(auto)]

mod csv;
mod json;
mod sheet;
mod table;
mod tables;
mod texts;

pub use csv::sheets_csv;
pub use json::sheets_json;
pub use sheet::{Column, Row, Sheet, Value, bytes_of};
pub use tables::sheets_table;
