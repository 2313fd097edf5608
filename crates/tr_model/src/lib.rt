//! One world for a whole trace, windows and confinement. Definitions alone.
#![tactic(auto)]
