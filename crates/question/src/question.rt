use bus::Ranking;

// What an input asks about: a ranking rule and a table file.
#[derive(Clone, Copy)]
pub struct Question<'a> {
    pub ranking: Ranking,
    pub file: &'a [u8],
}
