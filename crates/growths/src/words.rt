// Reports, as lists of words.

// The maximum number of words in a report, which is more than any report needs.
const MOST: usize = 48;

/// Words, in the order in which they were added. They allocate nothing, so the refused growth never
/// belongs to a report.
#[derive(Clone, Copy)]
pub(crate) struct Words {
    list: [&'static str; MOST],
    count: usize,
}

impl Words {
    /// Makes a report of one word.
    pub(crate) fn of(word: &'static str) -> Words {
        let mut words = Words {
            list: [""; MOST],
            count: 0,
        };
        words.push(word);
        words
    }

    /// Adds a word. If there is no room for it, replaces the last word with one that reports this.
    pub(crate) fn push(&mut self, word: &'static str) {
        let count = self.count;
        match self.list.get_mut(count) {
            Some(place) => {
                *place = word;
                self.count = count.saturating_add(1);
            }
            None => self.list[MOST - 1] = "and more",
        }
    }

    /// Returns the words.
    pub(crate) fn told(&self) -> &[&'static str] {
        self.list.get(..self.count).unwrap_or(&self.list)
    }
}
