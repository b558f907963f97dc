// Laws of the machine, as theorems over the definitions that its calls are proved against.
#![tactic(auto)]

ghost use Rattle.laws.specs.Laws.{BudgetInParts, WithinBudget, StopsAlterNothing, RegisterZero, LoadedMemory};
ghost use Rattle.laws.specs.Rows.{Rows, CountDown};

/// A theorem: a budget may be given in parts.
pub fn budget_in_parts()
    ensures { BudgetInParts }
{}

/// A theorem: no run does more than its budget, and a spent one does the whole of it.
pub fn within_budget()
    ensures { WithinBudget }
{}

/// A theorem: a word that stops costs nothing and alters nothing.
pub fn stops_alter_nothing()
    ensures { StopsAlterNothing }
{}

/// A theorem: register 0 is zero in every state.
pub fn register_zero()
    ensures { RegisterZero }
{}

/// A theorem: after a load the memory is the image and zeros.
pub fn loaded_memory()
    ensures { LoadedMemory }
{}

/// A theorem: one word of each operation, with what it does.
pub fn operation_rows()
    ensures { Rows }
{}

/// A theorem: the count-down image sends 3, 2, 1 and halts after 12 cycles.
pub fn count_down()
    ensures { CountDown }
{}
