// An element of the field of two elements.
#[derive(Clone, Copy, PartialEq, Eq, Debug)]
pub struct Gf2 {
    pub bit: bool,
}
