// Lookups in the tables of an analysis, over slices of any length and content: `fact_for_slot` of the three analyses, `is_reachable`, and "fixed".
#![tactic(auto)]

mod tables;

pub use tables::{Tables, is_reachable};
