// Where rows come from: feeds of rows that end clean or at a fault.
#![tactic(auto)]

pub mod exhaust;
pub mod fault;
pub mod feed;
pub mod list;
pub mod row;
pub mod section;
pub mod sheet;
