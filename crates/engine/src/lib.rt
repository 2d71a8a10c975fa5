// The engine: sixteen survival clocks, the queue of their events, commands, the journal and undo. The state lies in lent memory and is
// changed in place.
// Definitions: specs/, under the modules' names, and what they share; those of theorem are Demand3, LentDemand3, DeliveryOrder and Rows.
#![tactic(auto)]

pub mod clock_calls;
pub mod commands;
pub mod comparison;
pub mod copying;
pub mod execute;
pub mod execution;
pub mod journal;
pub mod kept_rows;
pub mod opening;
pub mod queue;
pub mod refusals;
pub mod replay;
pub mod run;
pub mod state;
pub mod state_rows;
pub mod theorem;
pub mod validation;
