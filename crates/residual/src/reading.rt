// Reading words from the front, one at a time, and the check that words are one whole term.
ghost use Rattle.std.specs.Prelude.{◌≡◌, List, ℕ, ◌≤◌, length};
ghost use Rattle.table.specs.Tables.{table};
ghost use Rattle.table.specs.Sound.{Limits};
ghost use Rattle.term.specs.Terms.{are_terms, is_operator};
ghost use Rattle.residual.specs.Reading.{read_at, leaf_word};

use crate::Cursor;
use table::{Sizes, is_process};

impl Cursor {
    // The word there, with the cursor after it; nothing at the end.
    pub fn read(self, words: &[u32]) -> Option<(u32, Cursor)>
        ensures { result ≡ read_at words.now self.at }
    {
        let word = words.get(self.at)?;
        let next = Cursor { at: self.at + 1 };
        Some((*word, next))
    }
}

// A word that takes two terms.
pub fn is_operator(word: u32) -> bool
    ensures { result ≡ is_operator word }
{
    matches!(word, term::SEQ_WORD | term::PAR_WORD)
}

// A word that is a term by itself: tick, idle or a process node below the first root.
fn is_leaf(roots: usize, kinds: &[u8], word: u32) -> bool
    requires { roots ≤ length kinds.now }
    ensures { result ≡ leaf_word roots kinds.now word }
{
    if matches!(word, term::TICK_WORD | term::IDLE_WORD) {
        return true;
    }
    let n = word as usize;
    n < roots && is_process(kinds[n])
}

// Whether the words are one whole term over process nodes: `more` terms are still to come.
// Sizes and kinds, and no fleet: the operands may be any, and the kinds more than the nodes.
pub fn whole_term(sizes: Sizes, kinds: &[u8], words: &[u32]) -> bool
    requires { (Limits sizes) × (sizes.nodes ≤ length kinds.now) }
    ensures { (operands : List ℕ) → result ≡ are_terms (table sizes kinds.now operands) 1 words.now }
{
    let roots = sizes.first_root();
    let mut cursor = Cursor::default();
    let mut more: usize = 1;
    while let Some((word, next)) = cursor.read(words) {
        if more == 0 {
            return false;
        }
        if is_operator(word) {
            more += 1;
        } else if is_leaf(roots, kinds, word) {
            more -= 1;
        } else {
            return false;
        }
        cursor = next;
    }
    more == 0
}
