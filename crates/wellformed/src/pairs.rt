// The pairs of a store, of whichever kind.
use super::candidates::Candidate;
use state::{Store, mark_at, value_at};
use table::KEYS;

impl<'a> Candidate<'a> {
    ghost use Rattle.std.specs.Prelude.{◌≡◌, ◌<◌};
    ghost use Rattle.basis.specs.Numbers.{every};
    ghost use Rattle.table.specs.Tables.{agent_limit};
    ghost use Rattle.state.specs.Layout.{key_limit};
    ghost use Rattle.state.specs.WellFormed.{pair_formed};
    ghost use Rattle.state.specs.Standing.{store_agent, Pair};

    // One pair of a store that has so many keys and no mark above the highest.
    #[tactic(auto, unfolding(state::specs::WellFormed::pair_formed))]
    fn pair_formed(&self, store: Store, highest: u32, keys: usize, key: usize) -> bool
        requires { Pair store key }
        ensures { result ≡ pair_formed self.now.state.now store highest keys key }
    {
        let mark = self.state[mark_at(store, key)];
        if mark == 0 {
            self.state[value_at(store, key)] == 0
        } else {
            (mark <= highest) & (key < keys)
        }
    }

    // All pairs of such a store.
    pub fn store_formed(&self, store: Store, highest: u32, keys: usize) -> bool
        requires { store_agent store < agent_limit }
        ensures { result ≡ every (pair_formed self.now.state.now store highest keys) key_limit }
    {
        (0..KEYS).all(|key| self.pair_formed(store, highest, keys, key))
    }
}
