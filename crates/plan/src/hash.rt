// The hash of a name, and the chains of the names that have the same one.
ghost use Rattle.std.specs.Prelude.{◌≡◌};
ghost use Rattle.plan.specs.Hashes.{hash_of};

use chains::chain::Chain;

// A key for each hash that a name can have, and a place for each name that a plan can have.
pub type NameChain = Chain<1024, 512>;

#[tactic(auto, unfolding(crate::specs::Hashes::hash_of))]
pub fn hash(name: &[u8]) -> u16
    ensures { result ≡ hash_of name.now }
{
    name.iter().fold(0, |sum, byte| {
        ((u32::from(sum) * 31 + u32::from(*byte)) % 1024) as u16
    })
}
