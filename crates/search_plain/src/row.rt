//! Terms as small lists: a head and the numbers of its arguments.

/// What stands at the head of a term; `X` and `Y` are the variables of foralls.
#[derive(Clone, Copy, PartialEq, Eq)]
pub(crate) enum Head {
    True,
    False,
    X,
    Y,
    A,
    B,
    C,
    F,
    G,
    K,
    P,
    R,
    Q,
}

impl Head {
    /// The head as it is written.
    pub(crate) fn name(self) -> &'static str {
        match self {
            Head::True => "true",
            Head::False => "false",
            Head::X => "x",
            Head::Y => "y",
            Head::A => "a",
            Head::B => "b",
            Head::C => "c",
            Head::F => "f",
            Head::G => "g",
            Head::K => "k",
            Head::P => "p",
            Head::R => "r",
            Head::Q => "q",
        }
    }
}

/// A term over terms with earlier numbers.
#[derive(Clone, Copy, PartialEq, Eq)]
pub(crate) struct Row {
    pub(crate) head: Head,
    pub(crate) args: [Option<usize>; 2],
}
