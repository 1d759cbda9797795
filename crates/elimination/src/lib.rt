// Elimination over strips: tables of rows in slices of strips, indexed by pivot, for every layout of strips.

#![tactic(auto)]

pub mod reduced_form;
pub mod reducing;
pub mod rows;
