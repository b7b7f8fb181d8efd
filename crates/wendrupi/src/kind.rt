/// What a run is least in.
#[derive(Clone, Copy, Debug, PartialEq, Eq)]
pub enum Kind {
    /// The prices of its ways and repeaters.
    Money,
    /// The grade to which the work disturbs the house.
    Disturbance,
}

impl Kind {
    /// The words of all kinds.
    pub const WORDS: [&'static str; 2] = ["money", "disturbance"];

    /// The kind of a word.
    pub fn of_word(word: &str) -> Option<Kind> {
        match word {
            "money" => Some(Kind::Money),
            "disturbance" => Some(Kind::Disturbance),
            _ => None,
        }
    }
}
