// Theorems as contracts of functions that do nothing, so that the check's log names them.
ghost use Rattle.std.specs.Prelude.{◌≡◌, ℕ, List};
ghost use Rattle.hazards.specs.declared.answers.Answer.{Answer};
ghost use Rattle.engine.specs.Refusals.{bad_buffers};
ghost use Rattle.engine.specs.Run.{run_of};
ghost use Rattle.engine.specs.DeliveryOrder.{DeliveryOrder};
ghost use Rattle.engine.specs.Demand3.{Demand3, RunDemand3};
ghost use Rattle.engine.specs.LentDemand3.{Memory, OpensIn, Gives, LentDemand3};
ghost use Rattle.engine.specs.Rows.{TwelveRows};

// Demand 3 holds, for every threshold stream, journal length and list of inputs.
pub fn demand_3()
    ensures { (stream : List ℕ) (n : ℕ) (inputs : List (List ℕ)) → Demand3 stream n inputs }
{}

// Demand 3 holds of the batch run, for any buffers that 18 does not refuse.
pub fn demand_3_of_runs()
    ensures { (commands stream journal answers outcome : List ℕ)
        → ((run_of commands stream journal answers outcome).number ≡ bad_buffers → ⊥) → RunDemand3 commands stream journal answers outcome }
{}

// Demand 3 holds of the calls over lent memory, for any list of inputs given to an engine that was opened there.
pub fn demand_3_in_lent_memory()
    ensures { (stream : List ℕ) (n : ℕ) (inputs : List (List ℕ)) (m : Memory) (answers : List Answer) (m' : Memory)
        → OpensIn n m → Gives stream m inputs answers m' → LentDemand3 stream n inputs m' }
{}

// Change 2 of document 02: of two events at the same tick the higher priority number is delivered first, then the lower index.
pub fn delivery_order()
    ensures { DeliveryOrder }
{}

// Document 01's table of twelve rows holds.
pub fn twelve_rows()
    ensures { TwelveRows }
{}
