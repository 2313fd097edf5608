//! Tests of the kernel's tables and of its calls, over whole images, and nothing else.
#![tactic(auto)]

#[cfg(test)]
mod tests;
