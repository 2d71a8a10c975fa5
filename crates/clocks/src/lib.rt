// Survival clocks in lent memory: channels with drawn thresholds, and the methods of hazard_clock.rs, each of which changes the clock in
// place. Definitions: specs/, one file for each module here; what the rows of a clock are read as is in Layout.
#![tactic(auto)]

pub mod channels;
pub mod clocks;
pub mod layout;
pub mod scheduling;
pub mod setting;
pub mod ticks;
pub mod validation;
