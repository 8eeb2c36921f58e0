#![tactic(auto)]

// The theorems that hold of every rule.
ghost use Rattle.theory.specs.Says.{Parts};

// Does nothing: what is proved of every rule is its contract.
pub fn theorems()
    ensures { Parts }
{}
