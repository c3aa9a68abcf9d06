//! The lines of a scene text: what begins them, and which are expected (docs/SCENES.md).
ghost use Rattle.std.specs.Prelude.{◌≡◌};
ghost use Rattle.px_scene.specs.Lines.{keyword_of};

use px_num::Linear;

/// What the first word of a line begins.
#[derive(Clone, Copy)]
pub(crate) enum Keyword {
    Pxscene,
    Picture,
    Depth,
    Solid,
    Front,
    Back,
    Side,
    Show,
    End,
    Other,
}

/// What is expected on a line, by the line before it.
#[derive(Clone, Copy)]
pub enum Due {
    Header,
    Picture,
    Depth,
    Solid,
    Plane,
    End,
    Nothing,
}

/// What is counted over the lines before a line.
#[derive(Clone, Copy)]
pub struct Tally {
    pub solids: u32,
    pub numbered: u32,
    pub fronts: u32,
    pub backs: u32,
    pub sides: u32,
}

/// The numbers of a colour, which no limit holds yet.
#[derive(Clone, Copy)]
pub struct Paint {
    pub red: i64,
    pub green: i64,
    pub blue: i64,
}

/// The numbers of a front or a back, its colour's too where it has its own.
#[derive(Clone, Copy)]
pub struct Plane {
    pub form: Linear,
    pub paint: Option<Paint>,
}

pub(crate) fn keyword_of(word: &[u8]) -> Keyword
    ensures { result ≡ keyword_of word.now }
{
    if word == b"pxscene".as_slice() {
        Keyword::Pxscene
    } else if word == b"picture".as_slice() {
        Keyword::Picture
    } else if word == b"depth".as_slice() {
        Keyword::Depth
    } else if word == b"solid".as_slice() {
        Keyword::Solid
    } else if word == b"front".as_slice() {
        Keyword::Front
    } else if word == b"back".as_slice() {
        Keyword::Back
    } else if word == b"side".as_slice() {
        Keyword::Side
    } else if word == b"show".as_slice() {
        Keyword::Show
    } else if word == b"end".as_slice() {
        Keyword::End
    } else {
        Keyword::Other
    }
}
