// Places that hold the same key form a chain, the newest first.
ghost use Rattle.std.specs.Prelude.{◌≡◌, length};
ghost use Rattle.chains.specs.Places.{Few};

pub mod methods;

// Places and keys are counted from 0.
// Two arrays of fixed size, by key and by place, since nothing is allocated.
#[derive(Drop)]
pub struct Chain<const KEYS: usize, const PLACES: usize> {
    // for each key the newest place that holds it
    heads: [Option<u16>; KEYS],
    // for each place the one before it with the same key
    nexts: [Option<u16>; PLACES],
    ghost keys: { length heads ≡ KEYS },
    ghost places: { length nexts ≡ PLACES },
    ghost newest: { Few heads },
    ghost older: { Few nexts },
}
