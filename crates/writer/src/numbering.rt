// Names numbered as they first appear among the nodes of a tree.
ghost use Rattle.std.specs.Prelude.{◌≡◌, ◌≤◌, length};
ghost use Rattle.std.specs.List.{All};

use arrayvec::ArrayVec;

pub mod methods;

#[derive(Drop)]
pub struct Numbering<'t> {
    // by label, of which none is 0, the number of its name, once that has appeared
    numbers: [Option<u16>; 513],
    // the names by number, from 1 on
    names: ArrayVec<&'t [u8], 512>,
    ghost labels: { length numbers ≡ 513 },
    ghost few: { length names.items ≤ 512 },
    ghost short: { All (λ name. length name.now ≤ 64) names.items },
}
