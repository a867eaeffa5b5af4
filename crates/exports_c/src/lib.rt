// The entries for C: each is the function of its name in `exports`, under its own name and C's calling convention.
#![tactic(auto)]

mod calls;
mod checked_calls;
mod checks;
