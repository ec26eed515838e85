// Definitions only: what each call judges, answers and leaves stands in specs/.
#![tactic(auto)]
