// Where things stand in a shelf's words, and which place a name has.
ghost use Rattle.std.specs.Prelude.{◌&&◌, ◌||◌, ◌≡◌, ◌<◌, ◌≤◌, length};
ghost use Rattle.steps.specs.Shelves.{place_limit, shelf_words, is_name as isAName, saved_of, is_held, place_of, save_place};
ghost use Rattle.shelf.specs.Shelving.{SavedAt, Found};

use state::STATE_WORDS;

// Places of a shelf, words of a shelf, and the highest name.
pub const PLACES: usize = 8;

pub const SHELF_WORDS: usize = PLACES + PLACES * STATE_WORDS;

pub const NAME_LIMIT: u32 = 255;

// Where the state of a place stands.
pub fn saved_at(place: usize) -> usize
    requires { place < place_limit }
    ensures { SavedAt place result }
{
    PLACES + STATE_WORDS * place
}

// The state of a place.
pub fn saved_of(shelf: &[u32], place: usize) -> &[u32]
    requires { (place < place_limit) × (length shelf.now ≡ shelf_words) }
    ensures { result.now ≡ saved_of shelf.now place }
{
    let at = saved_at(place);
    let end = at + STATE_WORDS;
    &shelf[at..end]
}

// The lowest place with this name word, 0 for a free one.
pub fn place_of(shelf: &[u32], name: u32) -> Option<usize>
    requires { place_limit ≤ length shelf.now }
    ensures { Found (is_held shelf.now name) (place_of shelf.now name) result }
{
    (0..PLACES).find(|place| shelf[*place] == name)
}

// The place where a name is saved: the one that it holds, or else the lowest free one.
pub fn save_place(shelf: &[u32], name: u32) -> Option<usize>
    requires { place_limit ≤ length shelf.now }
    ensures { Found (is_held shelf.now name || is_held shelf.now 0) (save_place shelf.now name) result }
{
    place_of(shelf, name).or(place_of(shelf, 0))
}

// Whether a number is a name: 1 to 255.
pub fn is_name(name: u32) -> bool
    ensures { result ≡ isAName name }
{
    (0 < name) & (name <= NAME_LIMIT)
}

// The place that a name holds.
pub fn held_place(shelf: &[u32], name: u32) -> Option<usize>
    requires { place_limit ≤ length shelf.now }
    ensures { Found (isAName name && is_held shelf.now name) (place_of shelf.now name) result }
{
    if is_name(name) {
        place_of(shelf, name)
    } else {
        None
    }
}
