// What it means that a contract leaves no choice (specs/Outcome.antt), said once for every crate. There is no code here.
#![tactic(auto)]
