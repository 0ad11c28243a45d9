// The words that are checked.
ghost use Rattle.wellformed.specs.Given.{CheckGiven};

use table::Sizes;

// A state's words, and the sizes and kinds of the table that they are checked for.
#[derive(Clone, Copy)]
pub struct Candidate<'a> {
    pub sizes: Sizes,
    pub kinds: &'a [u8],
    pub state: &'a [u32],
    pub ghost given: { CheckGiven sizes kinds.now state.now },
}
