//! Tests of removals and of entangled graphs, with values by hand: nets of fractions, rows over one denominator, and rows
//! compared with the nets of quotients that they denote. Also numbers that become too wide.

mod agreement;
mod case_nets;
mod cases;
mod nets;
mod reading;
mod rows;
mod wide_nets;
