// What a planner is given, and the rewriting that it answers.

/// What a planner is given beside the text.
#[derive(Clone, Copy, PartialEq, Eq)]
pub struct Given {
    /// Where the command acts.
    pub place: usize,
    /// The mark of the window, where it is set.
    pub mark: Option<usize>,
    /// The argument, where one was typed.
    pub argument: Option<usize>,
    /// The fill column, 1 to 9,999.
    pub fill: usize,
}

/// The case that letters come in.
#[derive(Clone, Copy, PartialEq, Eq)]
pub enum Case {
    /// Upper case for each.
    Upper,
    /// Lower case for each.
    Lower,
    /// Upper case for the first letter of each word, and lower case for the others.
    Capitalized,
}

/// What comes in the place of a stretch.
#[derive(Clone, Copy, PartialEq, Eq)]
pub enum Written {
    /// No character.
    Nothing,
    /// One space.
    Space,
    /// Its characters, in another case.
    Cased(Case),
    /// Its words, filled up to a column: `len` characters.
    Filled {
        /// The column.
        fill: usize,
        /// How many characters come in.
        len: usize,
    },
}

/// Where the point goes.
#[derive(Clone, Copy, PartialEq, Eq)]
pub enum Point {
    /// Nowhere but where the edit moves it.
    Stays,
    /// To this position of the text as it is then.
    To(usize),
    /// After what comes in.
    Behind,
}

/// What a command does to a text: the stretch from `from` up to `to` goes, and `written` comes in its place.
#[derive(Clone, Copy, PartialEq, Eq)]
pub struct Rewrite {
    /// Where the stretch begins.
    pub from: usize,
    /// Where it ends.
    pub to: usize,
    /// What comes in its place.
    pub written: Written,
    /// Where the point goes.
    pub point: Point,
}
