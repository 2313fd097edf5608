//! The world of a trace in which calls cross, leases expire, and a crash may drop commits. Definitions alone.
#![tactic(auto)]
