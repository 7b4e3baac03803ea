// Finding a name among names.
ghost use Rattle.std.specs.Prelude.{◌≡◌, position};
ghost use Rattle.std.specs.Str.{bytes_eq};
ghost use Rattle.names.specs.Lists.{texts, place_of};

// The place of the first name that is `name`.
pub fn find(names: &[&[u8]], name: &[u8]) -> Option<usize>
    ensures { result ≡ position (λ x. bytes_eq x.now name.now) names.now }
{
    names.iter().position(|each| *each == name)
}
