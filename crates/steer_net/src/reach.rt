/// Which bits of a row are told from the others by the control number, each by its own number.
#[derive(Clone, Copy, Debug, PartialEq, Eq)]
pub enum Reach {
    /// Those whose number is below it.
    Before,
    /// Those whose number is at most as great.
    Upto,
    /// The one whose number it is.
    At,
}
