// Theorems on tags: without their proofs the crate is refused.
ghost use Rattle.tags.specs.Grammar.{TagsFound, OneTag};

pub fn tags_are_found()
    ensures { TagsFound }
{}

pub fn one_tag_at_a_place()
    ensures { OneTag }
{}
