//! The machine: what it answers to an action, and what an entry leaves. Definitions alone.
#![tactic(auto)]
