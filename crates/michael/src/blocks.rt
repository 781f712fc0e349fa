// The state of Michael, and what a word makes of it.
ghost use Rattle.std.specs.Prelude.{◌≡◌, map, length};
ghost use Rattle.std.specs.Int.{w32, from_le_bytes};
ghost use Rattle.michael.specs.Michael.{key_state, xswap, block, taking, chain, code_octets};

use octets::array_at;

// Two words, which begin as those of the key and end as those of the code.
#[derive(Clone, Copy, PartialEq, Eq, Debug)]
pub struct State {
    pub left: u32,
    pub right: u32,
}

// The two octets of each half exchanged.
fn xswap(word: u32) -> u32
    ensures { result ≡ xswap word }
{
    let [a, b, c, d] = word.to_le_bytes();
    u32::from_le_bytes([b, a, d, c])
}

impl State {
    // The state that a key begins with.
    pub(crate) fn of_key(key: &[u8]) -> State
        requires { length key.now ≡ 8 }
        ensures { result ≡ key_state key.now }
    {
        let left = u32::from_le_bytes(array_at(key, 0));
        let right = u32::from_le_bytes(array_at(key, 4));
        State { left, right }
    }

    // The block function.
    pub fn block(self) -> State
        ensures { result ≡ block self }
    {
        let State { left, right } = self;
        let right = right ^ left.rotate_left(17);
        let left = left.wrapping_add(right);
        let right = right ^ xswap(left);
        let left = left.wrapping_add(right);
        let right = right ^ left.rotate_left(3);
        let left = left.wrapping_add(right);
        let right = right ^ left.rotate_right(2);
        State {
            left: left.wrapping_add(right),
            right,
        }
    }

    // The state once it has taken a word.
    pub(crate) fn take(self, word: u32) -> State
        ensures { result ≡ taking self word }
    {
        State {
            left: self.left ^ word,
            right: self.right,
        }
        .block()
    }

    // The state once it has taken words, each in its four octets.
    pub(crate) fn take_words(self, words: &[[u8; 4]]) -> State
        ensures { result ≡ chain self (map (from_le_bytes w32) words.now) }
    {
        let mut state = self;
        for word in words {
            state = state.take(u32::from_le_bytes(*word));
        }
        state
    }

    // Both words in octets.
    // Kept: private, and one of two steps of `end`: a `From` of the public state would say that any state is a code.
    pub(crate) fn octets(self) -> [u8; 8]
        ensures { result ≡ code_octets self }
    {
        let [a, b, c, d] = self.left.to_le_bytes();
        let [e, f, g, h] = self.right.to_le_bytes();
        [a, b, c, d, e, f, g, h]
    }
}
