// A theorem on plans: without its proof the crate is refused.
ghost use Rattle.plan.specs.Documents.{DocumentsAccepted};

pub fn documents_are_accepted()
    ensures { DocumentsAccepted }
{}
