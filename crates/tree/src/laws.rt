// Steps and questions select what XPath selects.
ghost use Rattle.tree.specs.XPath.{QuestionsAreXPath, StepsAreXPath};

// Without the proofs of both theorems the crate is refused.
pub fn steps_are_xpath()
    ensures steps { StepsAreXPath }
    ensures questions { QuestionsAreXPath }
{}
