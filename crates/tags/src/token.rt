// Tags of a text, and the pieces that a text is made of.

// The name of a tag, a part of the text, and the place of the tag's `<`.
#[derive(Clone, Copy, Debug, Drop)]
pub struct Tag<'a> {
    pub name: &'a [u8],
    pub place: usize,
}

#[derive(Clone, Copy, Debug, Drop)]
pub enum Token<'a> {
    Start(Tag<'a>),
    Empty(Tag<'a>),
    End(Tag<'a>),
}

// `NoTag` is a `<` where no tag begins.
#[derive(Clone, Copy, Debug, Drop)]
pub enum Piece<'a> {
    Text { byte: u8, place: usize },
    Tag(Token<'a>),
    NoTag { place: usize },
}
