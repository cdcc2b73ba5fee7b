// The worked examples of the rules and sessions of whole calls, as tables that the checker computes.
#![tactic(auto)]

ghost use Rattle.examples.specs.Sessions.{SessionsHold};
ghost use Rattle.examples.specs.Table.{ExamplesHold};

// Each example comes out as the rules say.
pub fn worked_examples_hold()
    ensures { ExamplesHold }
{}

// The session of the rules and the calls of each scenario come out as the rules say, refusals too.
pub fn calls_answer_as_worked()
    ensures { SessionsHold }
{}
