//! The worked examples hold, in one statement.
#![tactic(auto)]

ghost use Rattle.examples.specs.Examples.{Examples};

/// The worked examples of docs/RULES.md.
pub fn examples_hold()
    ensures { Examples }
{}
