//! Truth of metric first-order temporal logic: theorems on it, each on a function's contract.
#![tactic(auto)]

ghost use Rattle.mfotl.specs.Examples.{ExamplesStand, QuantifiedExamples};
ghost use Rattle.mfotl.specs.Laws.{FormedTables, FreeOnly, Reach, Settled};

/// The theorem that the formulas of a table that keeps the form rules are well formed.
pub fn tables_stand()
    ensures { FormedTables }
{}

/// The theorem that truth depends only on the values of the free variables.
pub fn free_variables_decide()
    ensures { FreeOnly }
{}

/// The theorem that truth at a position reaches as far as its stamp and the formula's wait.
pub fn reach_stands()
    ensures { Reach }
{}

/// The theorem that truth at a position is settled once the last stamp is at least its own plus the formula's wait.
pub fn settled_stands()
    ensures { Settled }
{}

/// The theorem that the worked examples come out as they say.
pub fn examples_stand()
    ensures table { ExamplesStand }
    ensures quantified { QuantifiedExamples }
{}
