// The laws of the format: without their proofs the crate is refused.
ghost use Rattle.stored.specs.Laws.{ImagesOpen, OpenedAreImages, PlansAreStored, TreesArePlans};

pub fn images_tell_plans()
    ensures plans { PlansAreStored }
    ensures trees { TreesArePlans }
    ensures images { ImagesOpen }
    ensures bytes { OpenedAreImages }
{}
