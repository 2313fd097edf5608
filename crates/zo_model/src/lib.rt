//! What users see and what words denote: trees, commands, marks. Definitions alone, over no machine.
#![tactic(auto)]
