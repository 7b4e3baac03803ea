// A list of names that are well-formed and distinct.
ghost use Rattle.std.specs.Prelude.{◌≡◌, true};
ghost use Rattle.names.specs.Lists.{texts, name_list};

pub mod methods;

static NONE: [&[u8]; 0] = [];

// The names were too many, or one of them was malformed, too long or doubled.
#[derive(Clone, Copy, Debug, Drop)]
pub struct NoNameList;

// The names are parts of a text; the slots that refer to them are lent.
#[derive(Clone, Copy, Drop)]
pub struct NameList<'s, 't> {
    names: &'s [&'t [u8]],
    ghost good: { name_list (texts names.now) ≡ true },
}
