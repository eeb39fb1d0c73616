// The table of marked cases and the theorem over it; this crate has no code.

#![tactic(auto)]
