// The calls of the library for the box, as C sees them. Each stands on a proved function and adds only the crossing (crate box_answers has what crosses).
// include/lintelmoth.h has the C side.
#![tactic(auto)]

pub mod joins;
pub mod loads;
pub mod rules;
pub mod sheet;
pub mod tables;
pub mod terms;
