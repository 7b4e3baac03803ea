// What opening and writing are to one another: without the proof the crate is refused.
ghost use Rattle.writer.specs.Laws.{ImagesArePlans};

pub fn images_are_plans()
    ensures { ImagesArePlans }
{}
